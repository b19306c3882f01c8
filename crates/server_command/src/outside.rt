ghost use Rattle.std.specs.Prelude.{◌&&◌, ◌≡◌, ◌≤◌, List, ℕ, Some, IsErrOf, length};
ghost use Rattle.web_outside.specs.View.{SeedsView};
ghost use Rattle.disk_trio.specs.Trio.{trio_view};
ghost use Rattle.trio_rack.specs.Trios.{KeepsHome};
ghost use Rattle.script_nodes.specs.Views.{scripts_of};
ghost use Rattle.setup_reader.specs.Texts.{IsReadSetup};
ghost use Rattle.command_words.specs.Plain.{CanServe};
ghost use Rattle.play_desk.specs.Opening.{AreHome};
ghost use Rattle.site_serving.specs.Serving.{pasts_of, views};
ghost use Rattle.command_words.specs.declared.Command.TheVariants as asked;
ghost use Rattle.server_command.specs.Calls.{HoldYesIfAudited, RoseIf};
ghost use Rattle.server_command.specs.Command.{around, asked_in, texts};
ghost use Rattle.server_command.specs.Ending.{ComesServed, ComesSo, EndsBehind, ServesSo};
ghost use Rattle.server_command.specs.Opening.{CanBegin};
ghost use Rattle.server_command.specs.Order.{Both, asks_of, both};
ghost use Rattle.server_command.specs.Outside.{HoldsTheSame, IsLent};
ghost use Rattle.server_command.specs.Output.{Hands};
ghost use Rattle.server_command.specs.Racks.{AreBack, racks_of};
ghost use Rattle.server_command.specs.Serving.{AreDrawn, outside};

use crate::auditing::{audit_all, audit_first};
use crate::feeding::{export_shelf, follow_feed, promote_all};
use crate::jobs::{Job, run_job};
use crate::loading::load_all;
use crate::opening::{give_all, open_site};
use crate::program::Status;
use crate::serving::{ServeFault, draw_sources, parse_setup, told_as, watch_of};
use crate::telling::{no_memory, tell_outcome, tell_unread};
use command_words::{Command, Service, WordsFault, read_words};
use request_workers::Tally;
use script_nodes::Setup;
use site_serving::{Past, serve_site};
use std::alloc::Global;
use std::marker::PhantomData;
use std::sync::Wait;
use std::thread::Threads;
use web_disk::{Disk, Rack};
use web_outside::{
    Clock, Door, Gate, Link, Nonces, Porch, Seeds, Sink, Source, read_all, write_or_drop,
};

/// What a command has besides its words and its streams, borrowed for as long as it runs.
#[derive(Drop)]
pub(crate) struct Outside<'a, W, D, R, A, C, N, S, G, P> {
    runtime: &'a W,
    alloc: Global,
    rack: &'a mut R,
    door: &'a mut A,
    clock: &'a C,
    seeds: &'a mut S,
    gate: &'a G,
    past: &'a mut P,
    // What the rack and the seeds give.
    gives: PhantomData<(D, N)>,
}

impl<'a, W, D, R, A, C, N, S, G, P> Outside<'a, W, D, R, A, C, N, S, G, P> {
    /// Holds what is lent.
    pub(crate) fn new(
        runtime: &'a W,
        alloc: Global,
        rack: &'a mut R,
        door: &'a mut A,
        clock: &'a C,
        seeds: &'a mut S,
        gate: &'a G,
        past: &'a mut P,
    ) -> Outside<'a, W, D, R, A, C, N, S, G, P>
        ensures rack { IsLent result.rack rack.entry }
        ensures door { IsLent result.door door.entry }
        ensures clock { result.clock.now ≡ clock.now }
        ensures seeds { IsLent result.seeds seeds.entry }
        ensures past { IsLent result.past past.entry }
    {
        Outside {
            runtime,
            alloc,
            rack,
            door,
            clock,
            seeds,
            gate,
            past,
            gives: PhantomData,
        }
    }
}

impl<
    W: Threads + Wait + Sync,
    D: Disk + Send + Sync,
    R: Rack<D>,
    A: Door,
    C: Clock + Sync,
    N: Nonces + Drop + Send + Sync,
    S: Seeds<N>,
    G: Gate + Sync,
    P: Past,
> Outside<'_, W, D, R, A, C, N, S, G, P>
where
    A::Porch: Send,
    <A::Porch as Porch>::Link: Send,
    <<A::Porch as Porch>::Link as Link>::Input: Send,
    <<A::Porch as Porch>::Link as Link>::Output: Send,
{
    /// Reads the words, and does what they ask for.
    pub(crate) fn run<I: Source, O: Sink>(
        &mut self,
        words: &[&str],
        input: &mut I,
        output: &mut O,
    ) -> Status
        requires home { AreHome (R.view self.old.rack.now).out }
        ensures same { HoldsTheSame self.old self.new }
        ensures ended { EndsBehind R.view result (ComesSo result)
            (around (texts words.now)
            (views (trio_view {G = ⟦<D as Disk>⟧}) D.tells A.Porch.Link.view A.Porch.view N.nonce
            (C.shows self.old.clock.now))
            (both (I.view input.old) (I.view input.new))
            (both (O.view output.old) (O.view output.new))
            (racks_of (R.tells && D.tells) (R.view self.old.rack.now) (R.view self.new.rack.now))
            (both (A.view self.old.door.now) (A.view self.new.door.now))
            (both (S.view self.old.seeds.now) (S.view self.new.seeds.now))
            (pasts_of (P.told self.old.past.now) (P.told self.new.past.now))) }
        ensures hands { Hands result (O.view output.old) (O.view output.new) }
        ensures back { AreBack (R.view self.old.rack.now) (R.view self.new.rack.now) }
        ensures input_later { (I.view input.old).faults ≤ (I.view input.new).faults }
        ensures door_later { (A.view self.old.door.now).faults ≤ (A.view self.new.door.now).faults }
        ensures seeds_later { (S.view self.old.seeds.now).faults ≤ (S.view self.new.seeds.now).faults }
    {
        match read_words(self.alloc, words) {
            Ok(Command::Check) => run_job(self.alloc, &Job::Check, input, output, self.rack),
            Ok(Command::Play(options)) => run_job(
                self.alloc,
                &Job::Play(options),
                input,
                output,
                self.rack,
            ),
            Ok(Command::Load(options)) => load_all(self.alloc, &options, output, self.rack),
            Ok(Command::Serve(service)) => self.run_service(&service, input, output),
            Ok(Command::Audit(options)) => audit_all(self.alloc, &options, output, self.rack),
            Ok(Command::Export(options)) => export_shelf(self.alloc, &options, output, self.rack),
            Ok(Command::Follow(options)) => {
                follow_feed(self.alloc, &options, input, output, self.rack)
            }
            Ok(Command::Promote(options)) => promote_all(self.alloc, &options, output, self.rack),
            Err(WordsFault::Usage) => {
                write_or_drop(output, b"error 2 usage\n");
                Status::Usage
            }
            Err(WordsFault::Memory) => no_memory(output),
        }
    }

    // Reads the input, serves the setup that it is, and tells what was counted.
    fn run_service<I: Source, O: Sink>(
        &mut self,
        service: &Service,
        input: &mut I,
        output: &mut O,
    ) -> Status
        requires can { CanServe service.now }
        requires home { AreHome (R.view self.old.rack.now).out }
        ensures same { HoldsTheSame self.old self.new }
        ensures ended { (words : List (List ℕ)) → asked_in words ≡ Some (asked.Serve service.now)
            → EndsBehind R.view result (ComesSo result)
            (around words
            (views (trio_view {G = ⟦<D as Disk>⟧}) D.tells A.Porch.Link.view A.Porch.view N.nonce
            (C.shows self.old.clock.now))
            (both (I.view input.old) (I.view input.new))
            (both (O.view output.old) (O.view output.new))
            (racks_of (R.tells && D.tells) (R.view self.old.rack.now) (R.view self.new.rack.now))
            (both (A.view self.old.door.now) (A.view self.new.door.now))
            (both (S.view self.old.seeds.now) (S.view self.new.seeds.now))
            (pasts_of (P.told self.old.past.now) (P.told self.new.past.now))) }
        ensures hands { Hands result (O.view output.old) (O.view output.new) }
        ensures back { AreBack (R.view self.old.rack.now) (R.view self.new.rack.now) }
        ensures input_later { (I.view input.old).faults ≤ (I.view input.new).faults }
        ensures door_later { (A.view self.old.door.now).faults ≤ (A.view self.new.door.now).faults }
        ensures seeds_later { (S.view self.old.seeds.now).faults ≤ (S.view self.new.seeds.now).faults }
    {
        let bytes = match read_all(self.alloc, input) {
            Ok(bytes) => bytes,
            Err(fault) => return tell_unread(fault, output),
        };
        let setup = match parse_setup(self.alloc, &bytes, output) {
            Ok(setup) => setup,
            Err(status) => return status,
        };
        let outcome = self.serve(service, setup);
        tell_outcome(self.alloc, outcome, output)
    }

    // Serves a setup by as many workers as the service says: links of the door, each with as many requests at most as it says,
    // until each worker served as many links as it says, or no more come. The shelves go on with what the journals of their disks make, under this setup. When
    // the workers have ended, what each shelf's callers did and what each worker counted is kept, once. Where the service asks for that, the
    // journals are audited first. An error is that of the seeds, of an audit, of a shelf that was not opened, of the door or a porch, or want of memory.
    fn serve(&mut self, service: &Service, setup: Setup) -> Result<Tally, ServeFault>
        requires can { CanServe service.now }
        requires read { IsReadSetup (scripts_of setup) }
        requires begins { CanBegin service.now.options.shelves (scripts_of setup) }
        ensures same { HoldsTheSame self.old self.new }
        ensures served { ComesServed R.view service.now
            (asks_of (both (A.view self.old.door.now) (A.view self.new.door.now))
            (both (S.view self.old.seeds.now) (S.view self.new.seeds.now))
            (pasts_of (P.told self.old.past.now) (P.told self.new.past.now)))
            (scripts_of setup) result
            (outside
            (views (trio_view {G = ⟦<D as Disk>⟧}) D.tells A.Porch.Link.view A.Porch.view N.nonce
            (C.shows self.old.clock.now))
            (racks_of (R.tells && D.tells) (R.view self.old.rack.now) (R.view self.new.rack.now))
            (A.view self.old.door.now) (A.view self.new.door.now) (S.view self.old.seeds.now)
            (pasts_of (P.told self.old.past.now) (P.told self.new.past.now))) }
        ensures key { RoseIf result ServeFault.Key
            (S.view self.old.seeds.now).faults (S.view self.new.seeds.now).faults }
        ensures door { RoseIf result ServeFault.Door
            (A.view self.old.door.now).faults (A.view self.new.door.now).faults }
        ensures door_later { (A.view self.old.door.now).faults ≤ (A.view self.new.door.now).faults }
        ensures seeds_later { (S.view self.old.seeds.now).faults ≤ (S.view self.new.seeds.now).faults }
        ensures rack_later { (R.view self.old.rack.now).faults ≤ (R.view self.new.rack.now).faults }
        ensures home { KeepsHome (R.view self.old.rack.now) (R.view self.new.rack.now) }
    {
        let sources = draw_sources(self.alloc, self.seeds, service.options.shelves)?;
        if let Err(end) = audit_first(self.alloc, self.rack, service) {
            return Err(ServeFault::Audit(end));
        }
        self.serve_from(service, sources, setup)
    }

    // Serves a setup, with a source of nonces for each shelf.
    fn serve_from(
        &mut self,
        service: &Service,
        sources: Vec<N>,
        setup: Setup,
    ) -> Result<Tally, ServeFault>
        requires can { CanServe service.now }
        requires read { IsReadSetup (scripts_of setup) }
        requires begins { CanBegin service.now.options.shelves (scripts_of setup) }
        requires sources { length sources.items ≡ service.now.options.shelves }
        requires audited { HoldYesIfAudited service.now (R.tells && D.tells)
            (R.view self.old.rack.now) }
        ensures same { HoldsTheSame self.old self.new }
        ensures still { self.new.seeds.now ≡ self.old.seeds.now }
        ensures served { (seeds : Both (SeedsView N)) →
            AreDrawn seeds.before service.now.options.shelves sources.items →
            ServesSo service.now
            (asks_of (both (A.view self.old.door.now) (A.view self.new.door.now)) seeds
            (pasts_of (P.told self.old.past.now) (P.told self.new.past.now)))
            (scripts_of setup) result
            (outside
            (views (trio_view {G = ⟦<D as Disk>⟧}) D.tells A.Porch.Link.view A.Porch.view N.nonce
            (C.shows self.old.clock.now))
            (racks_of (R.tells && D.tells) (R.view self.old.rack.now) (R.view self.new.rack.now))
            (A.view self.old.door.now) (A.view self.new.door.now) seeds.before
            (pasts_of (P.told self.old.past.now) (P.told self.new.past.now))) }
        ensures key { IsErrOf result ServeFault.Key → ⊥ }
        ensures door { RoseIf result ServeFault.Door
            (A.view self.old.door.now).faults (A.view self.new.door.now).faults }
        ensures door_later { (A.view self.old.door.now).faults ≤ (A.view self.new.door.now).faults }
        ensures rack_later { (R.view self.old.rack.now).faults ≤ (R.view self.new.rack.now).faults }
        ensures home { KeepsHome (R.view self.old.rack.now) (R.view self.new.rack.now) }
    {
        let site = match open_site(
            self.runtime,
            self.alloc,
            self.rack,
            sources,
            setup,
            &service.options,
        ) {
            Ok(site) => site,
            Err(fault) => return Err(ServeFault::Shelf(fault)),
        };
        let (disks, outcome) = serve_site(
            self.runtime,
            self.alloc,
            site,
            &watch_of(service),
            self.door,
            self.clock,
            self.gate,
            self.past,
        );
        give_all(self.rack, disks);
        told_as(outcome)
    }
}
