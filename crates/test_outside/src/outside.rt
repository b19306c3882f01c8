use crate::links::{CALM, gives, opened, patience};
use machine_outside::{MachineClock, MachineSeeds, ReadAhead, SocketDoor, StreamNonces, Together};
use rand_chacha::ChaCha20Rng;
use rand_core::SeedableRng;
use std::alloc::Global;
use std::io::ErrorKind;
use std::net::{Ipv4Addr, TcpListener, TcpStream};
use std::test::Fail;
use std::time::SystemTime;
use web_outside::{
    Clock, Door, DoorFault, Failed, Nonces, Seeds, Sink, Source, TextSink, TextSource, read_all,
};

// Bytes that differ from each other for long.
fn many(alloc: Global, count: usize) -> Result<Vec<u8>, Fail> {
    let mut bytes = Vec::new(alloc);
    for n in 0..count {
        bytes.push((n % 251) as u8)?;
    }
    Ok(bytes)
}

#[test]
fn reads_ahead_give_each_byte_once(rt: HostRuntime) -> Result<(), Fail> {
    let alloc = rt.alloc();
    let bytes = many(alloc, 10_000)?;
    let below = TextSource::new(bytes.clone()?, [1].to_vec(alloc)?, 3_000);
    let mut source = ReadAhead::new(below);
    let front = bytes.get(..3_000).ok_or("short")?;
    assert!(rt; gives(&mut source, front));
    // The second read below fails once.
    assert!(rt; source.read(&mut [0u8; 5]).is_err());
    assert_eq!(rt; source.faults(), 1);
    let rest = read_all(alloc, &mut source)?;
    assert!(rt; bytes.ends_with(&rest));
    assert_eq!(rt; rest.len(), 7_000);
    Ok(())
}

#[test]
fn kept_bytes_are_written_once_in_order(rt: HostRuntime) -> Result<(), Fail> {
    let alloc = rt.alloc();
    let bytes = many(alloc, 20_000)?;
    let mut sink = Together::new(alloc, TextSink::new(alloc, 20_000, [0].to_vec(alloc)?)?);
    let mut rest = bytes.as_slice();
    for _ in 0..1_000 {
        let piece = rest.get(..rest.len().min(77)).ok_or("short")?;
        let count = sink.write(piece)?;
        rest = rest.get(count..).ok_or("too much")?;
    }
    assert!(rt; rest.is_empty());
    // The first write below fails, and what was kept is kept on.
    assert_eq!(rt; (sink.flush(), sink.faults()), (Err(Failed), 1));
    sink.flush()?;
    assert!(rt; sink.below().bytes() == bytes.as_slice());
    assert!(rt; sink.below().handed() == bytes.as_slice());
    Ok(())
}

#[test]
fn the_door_is_this_machines_own(rt: HostRuntime) -> Result<(), Fail> {
    let (porches, port) = opened(&rt, CALM, 1)?;
    assert_eq!(rt; porches.len(), 1);
    assert!(rt; TcpStream::connect(&rt, (Ipv4Addr::LOCALHOST, port)).is_ok());
    match TcpStream::connect(&rt, (Ipv4Addr::new(127, 0, 0, 2), port)) {
        Ok(_) => assert!(rt; false, "another address is served"),
        Err(fault) => assert_eq!(rt; fault.kind(), ErrorKind::ConnectionRefused),
    }
    Ok(())
}

#[test]
fn the_door_listens_at_the_port_that_was_asked(rt: HostRuntime) -> Result<(), Fail> {
    let alloc = rt.alloc();
    let holder = TcpListener::bind(&rt, (Ipv4Addr::LOCALHOST, 0))?;
    let port = holder.local_addr()?.port();
    let mut door = SocketDoor {
        rt: &rt,
        patience: patience(CALM),
        faults: 0,
    };
    assert!(rt; matches!(door.listen(alloc, port, 1, 1), Err(DoorFault::Failed)));
    assert_eq!(rt; door.faults(), 1);
    drop(holder);
    let porches = door.listen(alloc, port, 2, 1)?;
    for porch in &porches {
        assert_eq!(rt; porch.listener().local_addr()?.port(), port);
    }
    door.close(porches);
    assert_eq!(rt; door.faults(), 1);
    Ok(())
}

#[test]
fn each_draw_has_a_key_of_its_own(rt: HostRuntime) -> Result<(), Fail> {
    let alloc = rt.alloc();
    let mut seeds = MachineSeeds { rt: &rt, faults: 0 };
    let mut nonces = Vec::new(alloc);
    let zeros = ChaCha20Rng::from_seed([0u8; 32]);
    nonces.push(StreamNonces::new(zeros).next())?;
    for _ in 0..2 {
        for mut source in seeds.draw(alloc, 2)? {
            nonces.push(source.next())?;
        }
    }
    nonces.sort_unstable();
    nonces.dedup();
    assert_eq!(rt; nonces.len(), 5);
    Ok(())
}

#[test]
fn the_clock_shows_seconds(rt: HostRuntime) -> Result<(), Fail> {
    let clock = MachineClock { rt: &rt };
    let before = SystemTime::now(&rt)?.duration_since(SystemTime::UNIX_EPOCH)?;
    let shown = clock.now();
    let after = SystemTime::now(&rt)?.duration_since(SystemTime::UNIX_EPOCH)?;
    assert!(rt; before.as_secs() <= shown && shown <= after.as_secs());
    Ok(())
}
