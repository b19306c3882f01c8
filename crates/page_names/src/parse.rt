ghost use Rattle.std.specs.Prelude.{◌≡◌, Some, IfSome, option_map};
ghost use Rattle.percent_encoding.specs.Percent.{percent_decode};
ghost use Rattle.page_names.specs.Names.{FindsEach, IsDestination, spelling, named_by, destination_of, destination_in, numbers_in, SpellingsAreRead, SpellingsDiffer};
ghost use Rattle.page_names.specs.Views.{target_of};
ghost use Rattle.script_value.specs.Pieces.{cut_at};

use crate::escapes::decode;
use crate::hexadecimal::hex_number;
use crate::names::{PageName, ScriptName, Target};
use script_value::pieces::{behind, cut_at, number, small_number};

/// The length of the longest spelling, of a page: `/servlets/`, a name, `;`, a `u32`, `*`, a
/// `u64`, `*`, a `u64`, `*` and a nonce.
pub(crate) const LONGEST_SPELLING: usize = 10 + 32 + 1 + 10 + 1 + 20 + 1 + 20 + 1 + 16;

/// What a path names. Once its escapes are decoded, it is spelled as a start or a page is.
#[tactic(auto, using(crate::proofs::Plain::long_path), unfolding(crate::specs::Names::destination_of))]
pub fn parse_target(path: &[u8]) -> Option<Target>
    ensures value { option_map target_of result ≡ destination_of path.now }
    ensures spelled { IfSome result (λ t. percent_decode path.now ≡ spelling (target_of t)) }
    ensures named { IfSome result (λ t. IsDestination (target_of t)) }
    ensures found { FindsEach (percent_decode path.now) (option_map target_of result) }
    ensures inverse { SpellingsAreRead }
    ensures distinct { SpellingsDiffer }
{
    let mut room = [0; LONGEST_SPELLING];
    let len = decode(path, &mut room)?;
    target_in(&room[..len])
}

#[tactic(auto, unfolding(crate::specs::Names::named_by))]
fn target_in(decoded: &[u8]) -> Option<Target>
    ensures { option_map target_of result ≡ named_by decoded.now }
{
    let rest = behind(b"/servlets/", decoded)?;
    target_behind(rest)
}

fn target_behind(bytes: &[u8]) -> Option<Target>
    ensures { option_map target_of result ≡ destination_in bytes.now (cut_at 59 bytes.now) }
{
    match cut_at(b';', bytes) {
        None => Some(Target::Start(ScriptName::new(bytes)?)),
        Some((name, numbers)) => {
            let name = ScriptName::new(name)?;
            let numbers = parse_numbers(numbers)?;
            Some(Target::Page(name, numbers))
        }
    }
}

fn parse_numbers(bytes: &[u8]) -> Option<PageName>
    ensures { result ≡ numbers_in bytes.now }
{
    let (shelf, rest) = cut_at(b'*', bytes)?;
    let (instance, rest) = cut_at(b'*', rest)?;
    let (page, nonce) = cut_at(b'*', rest)?;
    Some(PageName {
        shelf: small_number(shelf)?,
        instance: number(instance)?,
        page: number(page)?,
        nonce: hex_number(nonce)?,
    })
}
