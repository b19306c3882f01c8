ghost use Rattle.std.specs.Prelude.{IsTrue, take, ◌≤◌};
ghost use Rattle.page_names.specs.NameBytes.{is_name};

mod script;

/// The name of a script: 1 to 32 of `a` to `z`, `0` to `9` and `-`.
#[derive(Clone, Copy, Debug)]
pub struct ScriptName {
    bytes: [u8; 32],
    len: usize,
    ghost within: { len ≤ 32 },
    ghost named: { IsTrue (is_name (take len bytes)) },
}

/// The name of a page of a script.
#[derive(Clone, Copy, Debug, PartialEq, Eq)]
pub struct PageName {
    pub shelf: u32,
    pub instance: u64,
    pub page: u64,
    pub nonce: u64,
}

/// What a path names: the start of a script, or one of its pages.
#[derive(Clone, Copy)]
pub enum Target {
    Start(ScriptName),
    Page(ScriptName, PageName),
}
