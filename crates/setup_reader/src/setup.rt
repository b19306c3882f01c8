ghost use Rattle.std.specs.Prelude.{◌≡◌, ◌≢◌, ◌≤◌, ◌<◌, length, option_map, IfOk, Ok, Err, [], ◌+◌};
ghost use Rattle.page_names.specs.Views.{name_of};
ghost use Rattle.script_value.specs.Pieces.{number_below};
ghost use Rattle.script_nodes.specs.Views.{scripts_of, named_of};
ghost use Rattle.server_limits.specs.Counts.{most_scripts};
ghost use Rattle.setup_reader.specs.Limits.{AreShort, most_script_bytes};
ghost use Rattle.setup_reader.specs.Setup as spec;
ghost use Rattle.setup_reader.specs.Answers.{FindsSpelled, TellsFirst};
ghost use Rattle.setup_reader.specs.Views.{Gives, FindsNext, Tells, parsed_of};
ghost use Rattle.setup_reader.specs.Sections.{IsSetup};
ghost use Rattle.setup_reader.specs.Standing.{HasFault, HasText, IsReadable};
ghost use Rattle.setup_reader.specs.Texts.{IsReadSetup};

use crate::fault::{SetupError, SetupFault, SetupKind};
use core_syntax::{ExpandFault, expand};
use page_names::ScriptName;
use script_nodes::{NamedScript, Setup};
use script_value::Bytes;
use script_value::pieces::{behind, cut_at, number};
use server_limits::MOST_SCRIPTS;
use sexp_reader::{ReadFault, read_all};
use std::alloc::{AllocError, Global};
use web_outside::INPUT_LIMIT;

/// What ends a setup.
#[derive(Clone, Copy, Debug, PartialEq, Eq)]
pub enum Ending {
    /// The line `steps`; after it stand the steps that play with the scripts.
    Steps,
    /// The end of the input.
    Input,
}

/// The section of a script, and what follows it.
#[derive(Clone, Copy)]
pub struct Section<'a> {
    pub name: ScriptName,
    pub text: &'a [u8],
    pub rest: &'a [u8],
}

/// The scripts of an input, and the steps that play with them.
#[derive(Drop)]
pub struct Parsed<'a> {
    pub setup: Setup,
    pub steps: &'a [u8],
}

impl<'a> Parsed<'a> {
    /// A copy, equal to its source.
    pub fn try_clone(&self, alloc: Global) -> Result<Parsed<'a>, AllocError>
        ensures { IfOk result (λ copy. parsed_of copy ≡ parsed_of self.now) }
    {
        Ok(Parsed {
            setup: self.setup.try_clone(alloc)?,
            steps: self.steps,
        })
    }
}

// The length of a script, which is no longer than a whole input.
fn length_of(digits: &[u8]) -> Option<usize>
    ensures { result ≡ number_below (most_script_bytes + 1) digits.now }
{
    let length = number(digits)?;
    if length <= INPUT_LIMIT as u64 {
        Some(length as usize)
    } else {
        None
    }
}

fn fault(place: u64, kind: SetupKind) -> SetupFault
    ensures { result ≡ SetupFault.At (SetupError.Setup place kind) }
{
    SetupFault::At(SetupError::Setup { place, kind })
}

impl<'a> Section<'a> {
    ghost use Rattle.setup_reader.specs.Views.{piece_of};

    // The section that the input begins with.
    #[tactic(auto, unfolding(crate::specs::Setup::section_in))]
    fn parse(input: &'a [u8]) -> Option<Section<'a>>
        ensures { option_map piece_of result ≡ spec.section_in input.now }
    {
        let section = behind(b"script ", input)?;
        let (name, rest) = cut_at(b' ', section)?;
        let (digits, rest) = cut_at(b'\n', rest)?;
        let len = length_of(digits)?;
        let name = ScriptName::new(name)?;
        if rest.len() < len {
            return None;
        }
        let (text, rest) = rest.split_at(len);
        let rest = behind(b"\n", rest)?;
        Some(Section { name, text, rest })
    }
}

// The script of this name that a text is.
pub(crate) fn compile(
    alloc: Global,
    name: ScriptName,
    text: &[u8],
) -> Result<NamedScript, SetupFault>
    ensures value { Gives named_of result (spec.script_in (name_of name) text.now) }
    ensures memory { result ≡ Err SetupFault.Memory → IsReadable text.now }
{
    let data = match read_all(alloc, text) {
        Ok(data) => data,
        Err(ReadFault::At(error)) => return Err(SetupFault::At(SetupError::Read { name, error })),
        Err(ReadFault::Memory) => return Err(SetupFault::Memory),
    };
    match expand(alloc, &data) {
        Ok(script) => Ok(NamedScript {
            name,
            text: Bytes::new(text.to_vec(alloc)?),
            script,
        }),
        Err(ExpandFault::At(error)) => Err(SetupFault::At(SetupError::Syntax { name, error })),
        Err(ExpandFault::Memory) => Err(SetupFault::Memory),
    }
}

// The script of the section that stands here, after these scripts, and what follows it.
#[tactic(auto, using(crate::proofs::Sections::section_shorter))]
fn script_at<'a>(
    alloc: Global,
    place: u64,
    setup: &Setup,
    rest: &'a [u8],
) -> Result<(NamedScript, &'a [u8]), SetupFault>
    ensures found { FindsNext place (scripts_of setup.now) rest.now result }
    ensures shorter { IfOk result (λ x. length x.1.now < length rest.now) }
    ensures few { IfOk result (λ x. length (scripts_of setup.now) < most_scripts) }
    ensures memory { result ≡ Err SetupFault.Memory → HasText rest.now }
{
    let Some(section) = Section::parse(rest) else {
        return Err(fault(place, SetupKind::Section));
    };
    if setup.place(&section.name).is_some() {
        return Err(fault(place, SetupKind::Repeat));
    }
    if setup.len() >= MOST_SCRIPTS {
        return Err(fault(place, SetupKind::Many));
    }
    let script = compile(alloc, section.name, section.text)?;
    Ok((script, section.rest))
}

// What ends a setup here, with what stands after it.
fn end_at(ending: Ending, rest: &[u8]) -> Option<&[u8]>
    ensures { option_map (λ steps. steps.now) result ≡ spec.ending_at ending rest.now }
{
    match ending {
        Ending::Steps => behind(b"steps\n", rest),
        Ending::Input => match rest {
            [] => Some(rest),
            _ => None,
        },
    }
}

// The setup ends here after these scripts.
fn ended<'a>(place: u64, setup: Setup, steps: &'a [u8]) -> Result<Parsed<'a>, SetupFault>
    ensures value { Gives parsed_of result (spec.ended place (scripts_of setup) steps.now) }
    ensures told { result ≢ Err SetupFault.Memory }
{
    if setup.len() == 0 {
        return Err(fault(place, SetupKind::Empty));
    }
    Ok(Parsed { setup, steps })
}

// The input ends here after these scripts.
fn at_end<'a>(
    ending: Ending,
    place: u64,
    setup: Setup,
    rest: &'a [u8],
) -> Result<Parsed<'a>, SetupFault>
    requires { rest.now ≡ [] }
    ensures value { Gives parsed_of result (spec.at_end ending place (scripts_of setup) rest.now) }
    ensures told { result ≢ Err SetupFault.Memory }
{
    match end_at(ending, rest) {
        Some(steps) => ended(place, setup, steps),
        None => Err(fault(place, SetupKind::End)),
    }
}

impl<'a> Parsed<'a> {
    // The setup that the input begins with, or its first fault.
    #[tactic(auto, unfolding(crate::specs::Setup::setup_of))]
    fn read(alloc: Global, ending: Ending, input: &'a [u8]) -> Result<Parsed<'a>, SetupFault>
        ensures value { Gives parsed_of result (spec.setup_of ending input.now) }
        ensures memory { result ≡ Err SetupFault.Memory → HasText input.now }
    {
        let mut setup = Setup::new(Vec::new(alloc));
        let mut rest = input;
        'sections: while !rest.is_empty() {
            let place = (input.len() - rest.len()) as u64;
            if let Some(steps) = end_at(ending, rest) {
                return ended(place, setup, steps);
            }
            let (script, later) = script_at(alloc, place, &setup, rest)?;
            setup.push(script)?;
            rest = later;
        }
        at_end(ending, input.len() as u64, setup, rest)
    }

    /// The setup that the input spells or begins with, 1 to `MOST_SCRIPTS` sections of scripts and what ends it; or its first fault.
    #[tactic(auto, using(crate::proofs::Sections::answer_spells, crate::proofs::Sections::answer_found, crate::proofs::Short::answer_few, crate::proofs::Short::answer_short, crate::proofs::Standing::answer_stands, crate::proofs::Standing::answer_told, crate::proofs::Retold::answer_read))]
    pub fn parse(alloc: Global, ending: Ending, input: &'a [u8]) -> Result<Parsed<'a>, SetupFault>
        // The answer is that of reading, unless memory ran out.
        ensures value { Gives parsed_of result (spec.setup_of ending input.now) }
        // What is read is spelled so.
        ensures spelled { IfOk result (λ p. IsSetup ending input.now (parsed_of p)) }
        // What is spelled so is read, unless memory ran out.
        ensures found { FindsSpelled ending input.now result }
        // The fault that is told stands there.
        ensures fault { Tells (HasFault ending input.now) result }
        // The first fault is told, unless memory ran out.
        ensures told { TellsFirst ending input.now result }
        // What is wrong before the first text is read is told whatever memory there is.
        ensures memory { result ≡ Err SetupFault.Memory → HasText input.now }
        // The scripts are few, and their names and texts are not too long.
        ensures few { IfOk result (λ p. length (scripts_of p.setup) ≤ most_scripts) }
        ensures short { IfOk result (λ p. AreShort (scripts_of p.setup)) }
        // The setup is what its names and texts are read as, apart from the input.
        ensures texts { IfOk result (λ p. IsReadSetup (scripts_of p.setup)) }
    {
        Parsed::read(alloc, ending, input)
    }
}
