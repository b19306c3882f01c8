ghost use Rattle.std.specs.Prelude.{◌≡◌, ◌≤◌, ◌↔◌, IsTrue, map};
ghost use Rattle.std.specs.List.{list_all, AllByRecursion};
ghost use Rattle.script_value.specs.Val.{vals_of, depth, depth_all};
ghost use Rattle.script_value.specs.Views.{meaning};
ghost use Rattle.instance_cells.specs.Views.{effect_of};
ghost use Rattle.replay_spec.specs.Book.{ends};
ghost use Rattle.journal_records.specs.Fields.{is_shallow, is_shallow_effect, IsTyped, AreTyped, IsTypedEffect, NameFits};
ghost use Rattle.journal_records.specs.Records.{IfChanges, are_shallow, PartsFit};
ghost use Rattle.journal_records.specs.Views.{page_change, ending_of, recorded_of};

use crate::records::{EndedRecord, Origin, PageRecord, Recorded};
use instance_cells::Effect;
use script_value::{TxName, Value};
use value_bytes::MOST_LEVELS;

// Whether the values of a change's record nest no deeper than one may that is written; then all of them were seen.
pub(crate) fn nests_shallow(record: &Recorded<'_>) -> bool
    ensures shallow { IfChanges (recorded_of record.now) (λ c. result ≡ are_shallow c) }
    ensures parts { IsTrue result → IfChanges (recorded_of record.now) PartsFit }
{
    match record {
        Recorded::Begin { .. } => true,
        Recorded::Page { page, .. } => page_nests_shallow(page),
        Recorded::Ended(ended) => ended_nests_shallow(ended),
        Recorded::Finish(finish) => {
            is_shallow(&finish.answer) && effects_nest_shallow(&finish.effects)
        }
        Recorded::Sweep { .. } => true,
        Recorded::Texts { .. } => true,
        Recorded::Drawn { .. } => true,
        Recorded::Follow => true,
        Recorded::Promoted => true,
    }
}

fn page_nests_shallow(page: &PageRecord) -> bool
    ensures shallow { result ≡ are_shallow (page_change page.now) }
    ensures parts { IsTrue result → PartsFit (page_change page.now) }
{
    see_names(&page.left);
    match &page.origin {
        Origin::Start { .. } => effects_nest_shallow(&page.effects),
        Origin::Answer { answer, .. } => {
            is_shallow(answer) && effects_nest_shallow(&page.effects)
        }
    }
}

fn ended_nests_shallow(ended: &EndedRecord) -> bool
    ensures shallow { result ≡ are_shallow (ends (ending_of ended.now)) }
    ensures parts { IsTrue result → PartsFit (ends (ending_of ended.now)) }
{
    see_names(&ended.left);
    is_shallow(&ended.answer) && effects_nest_shallow(&ended.effects)
}

fn effects_nest_shallow(effects: &[Effect]) -> bool
    ensures shallow { result ≡ list_all is_shallow_effect (map effect_of effects.now) }
    ensures typed { IsTrue result → AllByRecursion IsTypedEffect (map effect_of effects.now) }
{
    for effect in effects {
        if !effect_nests_shallow(effect) {
            return false;
        }
    }
    true
}

fn effect_nests_shallow(effect: &Effect) -> bool
    ensures shallow { result ≡ is_shallow_effect (effect_of effect.now) }
    ensures typed { IsTrue result → IsTypedEffect (effect_of effect.now) }
{
    match effect {
        Effect::Read(cell, value) | Effect::Set(cell, value) => {
            let _cell = *cell;
            is_shallow(value)
        }
        Effect::Add(cell, number) => {
            let _cell = *cell;
            let _number = *number;
            true
        }
    }
}

fn is_shallow(value: &Value) -> bool
    ensures shallow { result ≡ is_shallow (meaning value.now) }
    ensures typed { IsTrue result → IsTyped (meaning value.now) }
{
    nests_within(value, MOST_LEVELS)
}

// Whether a value nests at most so many levels deep; where it does, the whole of it was seen.
#[cycle(nests)]
fn nests_within(value: &Value, levels: u32) -> bool
    ensures within { IsTrue result ↔ (depth (meaning value.now) ≤ levels) }
    ensures typed { IsTrue result → IsTyped (meaning value.now) }
{
    match value {
        Value::Int(number) => {
            let _number = *number;
            true
        }
        Value::Truth(_) => true,
        Value::Text(text) => {
            let _text = text.as_str();
            true
        }
        Value::Symbol(name) => {
            let _name = name.as_str();
            true
        }
        Value::List(items) => levels > 0 && all_nest_within(items.as_slice(), levels - 1),
    }
}

#[cycle(nests)]
fn all_nest_within(values: &[Value], levels: u32) -> bool
    ensures within { IsTrue result ↔ (depth_all (vals_of (map meaning values.now)) ≤ levels) }
    ensures typed { IsTrue result → AreTyped (vals_of (map meaning values.now)) }
{
    for value in values {
        if !nests_within(value, levels) {
            return false;
        }
    }
    true
}

// Reads each name, of which its type then tells.
fn see_names(names: &[TxName])
    ensures { AllByRecursion NameFits names.now }
{
    for name in names {
        see_name(name);
    }
}

fn see_name(name: &TxName)
    ensures { NameFits name.now }
{
    let _ticket = name.ticket;
    let _entry = name.entry;
}
