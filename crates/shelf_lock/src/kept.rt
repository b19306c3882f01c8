//! What may lie behind the lock.
ghost use Rattle.std.specs.Prelude.{◌≡◌, ℕ, List, length};

/// A value that stands for an opening, and for a history of entries after it, each made by a caller. Where the value is
/// `Send`, threads may share its lock.
pub trait Kept {
    /// What no turn changes. No value of it need be made.
    type Opening;

    /// What one turn may put after the others. No value of it need be made.
    type Entry;

    /// The opening that the value stands for.
    ghost opening: { Self → Self.Opening };

    /// The number of the first entry; the others are numbered from there.
    ghost first: { Self → ℕ };

    /// The entries so far, oldest first.
    ghost history: { Self → List Self.Entry };

    /// The caller that made an entry.
    ghost caller: { Self.Entry → ℕ };

    /// What holds of the value between turns, as that its history is legal.
    ghost sound: { Self → Type 0 };

    /// The number of the first entry.
    fn first_number(&self) -> u64
        ensures { result ≡ first self.now };

    /// How many entries there are.
    fn entry_count(&self) -> u64
        ensures { result ≡ length (history self.now) };
}
