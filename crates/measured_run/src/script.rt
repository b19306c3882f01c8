ghost use Rattle.std.specs.Prelude.{◌≡◌, ◌<◌, IfOk, string_bytes};
ghost use Rattle.measured_run.specs.Scripts as spec;

use std::alloc::{AllocError, Global};

/// A script of a measured run.
#[derive(Clone, Copy, Debug, PartialEq, Eq)]
pub enum LoadScript {
    /// It keeps what is picked in a web cell.
    Hotel,
    /// It sells one piece out of an instance cell.
    Shop,
    /// It charges within a transaction.
    Pay,
}

const HOTEL: &str = r#"(define picked (make-web-cell "none"))
(let ((b (send/suspend (lambda (u) `(a ((href ,u)) "list")))))
  (web-cell-shadow picked (extract-binding/single 'h b))
  (send/suspend (lambda (u) `(a ((href ,u)) "confirm")))
  `(p ,(web-cell-ref picked)))"#;

const SHOP: &str = r#"(define stock (make-instance-cell 1))
(begin
  (send/suspend (lambda (u) `(a ((href ,u)) "buy")))
  (if (< (instance-cell-ref stock) 1)
      '(p "sold out")
      (begin (instance-cell-add! stock -1) '(p "bought"))))"#;

const PAY: &str = r#"(define charged (make-instance-cell 0))
(begin
  (send/suspend (lambda (u) `(a ((href ,u)) "cart")))
  (isolate
    (begin
      (send/suspend (lambda (u) `(a ((href ,u)) "card")))
      (send/suspend (lambda (u) `(a ((href ,u)) "pay")))
      (instance-cell-add! charged 1)))
  (send/suspend (lambda (u)
    `(a ((href ,u)) ,(number->string (instance-cell-ref charged)))))
  '(p "end"))"#;

impl LoadScript {
    /// Its name.
    pub fn name(self) -> &'static str
        ensures { result.now ≡ spec.name_of self }
    {
        match self {
            LoadScript::Hotel => "hotel",
            LoadScript::Shop => "shop",
            LoadScript::Pay => "pay",
        }
    }

    /// Its text: lines with newlines between them.
    #[tactic(auto, unfolding(crate::specs::Scripts::text_of))]
    pub fn text(self) -> &'static str
        ensures { result.now ≡ spec.text_of self }
    {
        match self {
            LoadScript::Hotel => HOTEL,
            LoadScript::Shop => SHOP,
            LoadScript::Pay => PAY,
        }
    }

    /// The script of this number.
    pub fn of(number: u64) -> LoadScript
        requires { number < 3 }
        ensures { result ≡ spec.script_of number }
    {
        match number {
            0 => LoadScript::Hotel,
            1 => LoadScript::Shop,
            _ => LoadScript::Pay,
        }
    }

    /// The target that starts it.
    pub fn start(self, alloc: Global) -> Result<Vec<u8>, AllocError>
        ensures { IfOk result (λ target. target.items ≡ spec.start_of self) }
    {
        let name = self.name();
        let target = format!(in alloc; "/servlets/{name}")?;
        Ok(target.into_bytes())
    }

    // Its section of the setup.
    fn section(self, alloc: Global) -> Result<String, AllocError>
        ensures { IfOk result (λ section. string_bytes section ≡ spec.section_of self) }
    {
        let name = self.name();
        let text = self.text();
        let length = text.len();
        let mut section = format!(in alloc; "script {name} {length}\n")?;
        section.push_str(text)?;
        section.push_str("\n")?;
        Ok(section)
    }
}

/// The setup of a measured run: the sections of its scripts in the order of their numbers, each
/// `script NAME LENGTH`, the script's text and a newline.
pub fn setup_text(alloc: Global) -> Result<String, AllocError>
    ensures { IfOk result (λ setup. string_bytes setup ≡ spec.setup_text) }
{
    let mut setup = LoadScript::Hotel.section(alloc)?;
    setup.push_str(LoadScript::Shop.section(alloc)?.as_str())?;
    setup.push_str(LoadScript::Pay.section(alloc)?.as_str())?;
    Ok(setup)
}
