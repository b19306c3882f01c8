ghost use Rattle.std.specs.Prelude.{◌≡◌};
ghost use Rattle.core_syntax.specs.Heads.{head_of, syntax_of, page_form_of, operation_of};

use prim_ops::operation;
use script_nodes::SendKind;
use script_value::Op;

/// The kinds of cells.
#[derive(Clone, Copy)]
pub enum CellKind {
    /// Cells of the visitor's page, bound by shadows.
    Web,
    /// Cells of the instance.
    Instance,
}

/// What a form does to the cell that it names.
#[derive(Clone, Copy)]
pub enum Store {
    /// `web-cell-shadow`
    Shadow,
    /// `instance-cell-set!`
    Set,
    /// `instance-cell-add!`
    Add,
}

/// How a page is sent that waits for no answer.
#[derive(Clone, Copy)]
pub enum LastPage {
    /// `send/finish`
    Finish,
    /// `send/back`
    Back,
}

/// What a name at the head of a list says.
#[derive(Clone, Copy)]
pub enum Head {
    Quote,
    Quasiquote,
    Let,
    /// `let*`
    LetInTurn,
    Begin,
    If,
    Cond,
    And,
    Or,
    /// `for/list`
    For,
    /// `web-cell-ref` or `instance-cell-ref`
    Ref(CellKind),
    Store(Store),
    /// `send/suspend` or `send/forward`
    Send(SendKind),
    Last(LastPage),
    Isolate,
    Call,
    Define,
    /// `define-task`
    DefineTask,
    Apply(Op),
}

// The form of the language that a name begins.
#[tactic(auto, unfolding(crate::specs::Heads::syntax_of))]
fn syntax_of(name: &str) -> Option<Head>
    ensures { result ≡ syntax_of name.now }
{
    match name {
        "quote" => Some(Head::Quote),
        "quasiquote" => Some(Head::Quasiquote),
        "let" => Some(Head::Let),
        "let*" => Some(Head::LetInTurn),
        "begin" => Some(Head::Begin),
        "if" => Some(Head::If),
        "cond" => Some(Head::Cond),
        "and" => Some(Head::And),
        "or" => Some(Head::Or),
        "for/list" => Some(Head::For),
        "define" => Some(Head::Define),
        "define-task" => Some(Head::DefineTask),
        _ => None,
    }
}

// The form of a name that reads or changes cells, sends a page, or calls a task.
#[tactic(auto, unfolding(crate::specs::Heads::page_form_of))]
fn page_form_of(name: &str) -> Option<Head>
    ensures { result ≡ page_form_of name.now }
{
    match name {
        "web-cell-ref" => Some(Head::Ref(CellKind::Web)),
        "web-cell-shadow" => Some(Head::Store(Store::Shadow)),
        "instance-cell-ref" => Some(Head::Ref(CellKind::Instance)),
        "instance-cell-set!" => Some(Head::Store(Store::Set)),
        "instance-cell-add!" => Some(Head::Store(Store::Add)),
        "send/suspend" => Some(Head::Send(SendKind::Suspend)),
        "send/forward" => Some(Head::Send(SendKind::Forward)),
        "send/finish" => Some(Head::Last(LastPage::Finish)),
        "send/back" => Some(Head::Last(LastPage::Back)),
        "isolate" => Some(Head::Isolate),
        "call" => Some(Head::Call),
        _ => None,
    }
}

// The operation of a name.
fn operation_of(name: &str) -> Option<Head>
    ensures { result ≡ operation_of name.now }
{
    operation(name).map(Head::Apply)
}

/// The form or the operation of a name.
pub fn head_of(name: &str) -> Option<Head>
    ensures { result ≡ head_of name.now }
{
    syntax_of(name)
        .or(page_form_of(name))
        .or(operation_of(name))
}
