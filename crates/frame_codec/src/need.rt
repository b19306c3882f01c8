/// How much of a state is needed: so many of its variables and of its frames, from the outermost on, or all where there are fewer;
/// and all its bindings of web cells.
#[derive(Clone, Copy)]
pub struct Need {
    pub variables: usize,
    pub frames: usize,
}

impl Need {
    /// All of a state, however large it is.
    pub const ALL: Need = Need {
        variables: usize::MAX,
        frames: usize::MAX,
    };
}
