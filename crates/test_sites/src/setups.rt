ghost use Rattle.std.specs.Prelude.{IfOk};
ghost use Rattle.script_nodes.specs.Views.{scripts_of};
ghost use Rattle.setup_reader.specs.Texts.{IsReadSetup};

use script_nodes::{ScriptText, Setup};
use script_value::Bytes;
use setup_reader::setup_of;
use std::alloc::Global;
use std::test::Fail;

// One item, which is sold once.
const SHOP: &str = r#"(define stock (make-instance-cell 1))
(begin
  (send/suspend (lambda (u) `(a ((href ,u)) "buy")))
  (if (< (instance-cell-ref stock) 1)
      '(p "sold out")
      (begin (instance-cell-add! stock -1) '(p "bought"))))"#;

// The shop when all is sold.
const EMPTY_SHOP: &str = r#"'(p "closed")"#;

// What was said to its page last.
const NOTE: &str = r#"(define said (make-instance-cell "none"))
(let ((b (send/suspend (lambda (u) `(a ((href ,u)) "say")))))
  (if (exists-binding? 'w b)
      (begin (instance-cell-set! said (extract-binding/single 'w b)) '(p "ok"))
      `(p ,(instance-cell-ref said))))"#;

// Each visit counts, and shows its own count: the first word of a page, but for the start's.
const TALLY: &str = r#"(define count (make-instance-cell 0))
(let* ((first (send/suspend (lambda (u) `(a ((href ,u)) "count"))))
       (mine (begin (instance-cell-add! count 1) (instance-cell-ref count)))
       (second (send/suspend (lambda (u)
         `(a ((href ,u)) ,(number->string mine) " " ,(extract-binding/single 'k first))))))
  (instance-cell-add! count 1)
  `(p ,(number->string (instance-cell-ref count)) " " ,(number->string mine) " "
      ,(extract-binding/single 'k first) " " ,(extract-binding/single 'k second)))"#;

// Three pages in a row, each with the answers before it.
const PATH: &str = r#"(let* ((first (send/suspend (lambda (u) `(a ((href ,u)) "first"))))
       (one (extract-binding/single 'k first))
       (second (send/suspend (lambda (u) `(a ((href ,u)) ,one))))
       (two (extract-binding/single 'k second))
       (third (send/suspend (lambda (u) `(a ((href ,u)) ,one " " ,two)))))
  `(p ,one " " ,two " " ,(extract-binding/single 'k third)))"#;

/// A script whose item is sold once, and one that keeps what was said.
pub const SHOP_AND_NOTE: &[(&str, &str)] = &[("shop", SHOP), ("note", NOTE)];

/// A script whose item is sold out, and one that keeps what was said.
pub const EMPTY_SHOP_AND_NOTE: &[(&str, &str)] = &[("shop", EMPTY_SHOP), ("note", NOTE)];

/// A script that counts, and one with three pages in a row.
pub const TALLY_AND_PATH: &[(&str, &str)] = &[("tally", TALLY), ("path", PATH)];

// The names and texts of these scripts, as a journal tells them.
fn told(alloc: Global, scripts: &[(&str, &str)]) -> Result<Vec<ScriptText>, Fail> {
    let mut texts = Vec::new(alloc);
    for (name, text) in scripts {
        texts.push(ScriptText {
            name: Bytes::new(name.as_bytes().to_vec(alloc)?),
            text: Bytes::new(text.as_bytes().to_vec(alloc)?),
        })?;
    }
    Ok(texts)
}

/// The scripts of these names and texts.
pub fn setup(alloc: Global, scripts: &[(&str, &str)]) -> Result<Setup, Fail>
    ensures { IfOk result (λ setup. IsReadSetup (scripts_of setup)) }
{
    let texts = told(alloc, scripts)?;
    match setup_of(alloc, texts.as_slice())? {
        Some(setup) => Ok(setup),
        None => Err(Fail::from("no setup")),
    }
}
