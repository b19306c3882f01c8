use crate::states::are_alike;
use crate::told::Told;
use crate::twins::Chain;
use frame_codec::{Need, copied_front, join};
use kept_states::{Found, KeptState, next_links};
use machine_states::{Origin, Outcome, Suspended};
use script_nodes::Script;
use std::alloc::{AllocError, Global};

// The state that was kept after that of the page before, if it is found.
fn found(
    alloc: Global,
    script: &Script,
    before: &Origin,
    kept: &KeptState,
) -> Result<Option<Suspended>, AllocError> {
    let Origin::Page(parent) = before else {
        return kept.read_alone(alloc, script, Need::ALL);
    };
    if kept.links == 0 {
        return kept.read_alone(alloc, script, Need::ALL);
    }
    Ok(match kept.read_behind(alloc, script, Need::ALL)? {
        Some(Found::Front(front)) => Some(front),
        Some(Found::Difference(own)) => {
            let shared = copied_front(alloc, parent, own.shared())?;
            Some(join(alloc, shared, own)?)
        }
        None => None,
    })
}

// The state that is read of what was kept, or why it is not this one.
fn read_back(
    alloc: Global,
    script: &Script,
    before: &Origin,
    kept: &KeptState,
    state: &Suspended,
) -> Result<Result<Suspended, &'static str>, AllocError> {
    let Some(back) = found(alloc, script, before, kept)? else {
        return Ok(Err("not found"));
    };
    Ok(if are_alike(alloc, state, &back)? {
        Ok(back)
    } else {
        Err("another state")
    })
}

// The pages up to one: what is told of them, the links of the next one, and what was read of the last.
#[derive(Drop)]
struct Kept {
    told: Told,
    links: u8,
    before: Origin,
}

impl Kept {
    // The links of what is kept, and how many bytes it has.
    fn tell(&mut self, kept: &KeptState) {
        if let Origin::Page(_) = self.before {
            self.told.add(" ");
        }
        self.told.number(kept.links as u64);
        match kept.bytes() {
            Some(bytes) => {
                self.told.add(":");
                self.told.number(bytes.len() as u64);
            }
            None => self.told.add(":whole"),
        }
    }

    // One more page with this state; or why what is kept of it does not give it back.
    fn page(
        &mut self,
        alloc: Global,
        script: &Script,
        state: &Suspended,
    ) -> Result<Option<&'static str>, AllocError> {
        let kept = KeptState::of(alloc, &self.before, self.links, state)?;
        match read_back(alloc, script, &self.before, &kept, state)? {
            Ok(back) => {
                self.tell(&kept);
                self.links = next_links(self.links);
                self.before = Origin::Page(back);
                Ok(None)
            }
            Err(word) => Ok(Some(word)),
        }
    }
}

/// How the states of pages are kept, each after what was read of the one before: how many links it is from one that is kept by
/// itself, and in how many bytes.
pub fn kept_told(alloc: Global, script: &Script, chain: &Chain) -> Result<String, AllocError> {
    let mut kept = Kept {
        told: Told::new(alloc),
        links: 0,
        before: Origin::Start,
    };
    for twins in &chain.segments {
        if let Outcome::Shown { state, .. } = &twins.machine.outcome {
            if let Some(word) = kept.page(alloc, script, state)? {
                return String::from_str(alloc, word);
            }
        }
    }
    kept.told.all()
}
