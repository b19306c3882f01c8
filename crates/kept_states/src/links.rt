ghost use Rattle.std.specs.Prelude.{◌≡◌};
ghost use Rattle.kept_states.specs.Links as spec;

/// How many links a page may be from one whose state is kept by itself.
pub const MOST_LINKS: u8 = 32;

/// The links of a page that follows one of so many: one more, or none after the most.
pub fn next_links(links: u8) -> u8
    ensures { result ≡ spec.next_links links }
{
    if links >= MOST_LINKS { 0 } else { links + 1 }
}
