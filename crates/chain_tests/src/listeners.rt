// What a carrier over a connection to its own listener loses, where somebody else connects there.
use crate::cases::{is_same, is_so};
use client::run_script;
use lab::{Carried, Carrier, Peer, World};
use scripts::read_script;
use std::alloc::Global;
use std::io::Write;
use std::net::{SocketAddr, TcpListener, TcpStream};
use std::process::Abort;
use std::time::Duration;
use tcp_carrier::TcpCarrier;

// A carrier, and the address to which it connects.
fn carrier_at(rt: &impl Abort, host: HostRuntime) -> (TcpCarrier<HostRuntime>, SocketAddr) {
    let listener = TcpListener::bind(&host, "127.0.0.1:0").expect(rt, "a listener");
    let address = listener.local_addr().expect(rt, "its address");
    (TcpCarrier::new(host, listener), address)
}

// Somebody else's connection.
fn connected(rt: &impl Abort, host: &HostRuntime, address: SocketAddr) -> TcpStream {
    TcpStream::connect(host, address).expect(rt, "a connection")
}

// Whether these bytes arrive, as they are.
fn arrives<C: Carrier>(rt: &impl Abort, alloc: Global, carrier: &mut C, bytes: &[u8]) -> bool {
    let carried = carrier.carry(alloc, Peer::Client, Peer::Client, bytes);
    match carried.expect(rt, "memory") {
        Carried::Same => true,
        Carried::Bytes(got) => is_same(&got, bytes),
        Carried::Lost => false,
    }
}

// The first frame that is carried.
const FIRST: &[u8] = b"a frame";

// How long the others are: one of 33 pieces, none, one of exactly a piece, one with a byte more.
static LENGTHS: [usize; 5] = [131_076, 0, 4_096, 4_097, 150];

// A frame of so many bytes. No two pieces of it are alike.
fn frame_of(rt: &impl Abort, alloc: Global, len: usize) -> Vec<u8> {
    let mut bytes = Vec::new(alloc);
    for i in 0..len {
        bytes.push((i % 251) as u8).expect(rt, "memory");
    }
    bytes
}

// Fails the test unless frames of all these lengths arrive.
fn all_arrive<C: Carrier>(rt: &impl Abort, alloc: Global, carrier: &mut C) {
    for len in LENGTHS {
        let bytes = frame_of(rt, alloc, len);
        is_so(rt, arrives(rt, alloc, carrier, &bytes), "a frame");
    }
}

#[test]
fn a_connection_that_was_closed_before_the_first_frame(rt: HostRuntime) {
    let (mut carrier, address) = carrier_at(&rt, rt);
    drop(connected(&rt, &rt, address));
    let is_lost = !arrives(&rt, rt.alloc(), &mut carrier, FIRST);
    is_so(&rt, is_lost, "the first frame is lost");
    all_arrive(&rt, rt.alloc(), &mut carrier);
}

// What somebody else writes before the first frame, and which of the first two frames arrive. What
// is as long as the frame is another frame, or this very one; what is shorter is waited for.
static OTHERS: [(&[u8], bool, bool); 4] = [
    (b"", false, true),
    (b"a fra", false, true),
    (b"A FRAME", false, true),
    (b"a frame", true, false),
];

// Fails the test unless so many of the first frames arrive, and the others as they are to.
fn is_as_listed(rt: &impl Abort, host: HostRuntime, other: &(&[u8], bool, bool)) {
    let alloc = host.alloc();
    let (mut carrier, address) = carrier_at(rt, host);
    let mut stream = connected(rt, &host, address);
    stream.write_all(other.0).expect(rt, "bytes of its own");
    let first = arrives(rt, alloc, &mut carrier, FIRST);
    let second = arrives(rt, alloc, &mut carrier, FIRST);
    let is_listed = first == other.1 && second == other.2;
    is_so(rt, is_listed, "the first two frames");
    all_arrive(rt, alloc, &mut carrier);
}

#[test]
fn connections_that_stay_open(rt: HostRuntime) {
    for other in &OTHERS {
        is_as_listed(&rt, rt, other);
    }
}

#[test]
fn a_connection_behind_the_first_frame(rt: HostRuntime) {
    let (mut carrier, address) = carrier_at(&rt, rt);
    let is_carried = arrives(&rt, rt.alloc(), &mut carrier, FIRST);
    is_so(&rt, is_carried, "no other is there");
    let mut stream = connected(&rt, &rt, address);
    stream.write_all(FIRST).expect(&rt, "bytes of its own");
    all_arrive(&rt, rt.alloc(), &mut carrier);
}

// More connections than may wait at a listener.
const MANY: usize = 300;

// Connects again and again, until nothing is accepted any more.
fn crowd(rt: &impl Abort, host: &HostRuntime, address: SocketAddr) -> Vec<TcpStream> {
    let mut streams = Vec::new(host.alloc());
    for _ in 0..MANY {
        match TcpStream::connect_timeout(host, &address, Duration::from_millis(50)) {
            Ok(stream) => streams.push(stream).expect(rt, "memory"),
            Err(_) => break,
        }
    }
    streams
}

#[test]
fn a_full_queue_before_the_first_frame(rt: HostRuntime) {
    let (mut carrier, address) = carrier_at(&rt, rt);
    let streams = crowd(&rt, &rt, address);
    is_so(&rt, streams.len() < MANY, "a full queue");
    let is_lost = !arrives(&rt, rt.alloc(), &mut carrier, FIRST);
    is_so(&rt, is_lost, "the first frame is lost");
    all_arrive(&rt, rt.alloc(), &mut carrier);
    drop(streams);
}

// A batch is submitted to a chain of two, again, and read.
const SCRIPT: &[u8] = b"config 1 2\nsubmit 1 a=1\nsubmit 1 a=1\nflow\nget 1 a\nshow 1\nshow 2\n";

// The first submit is lost.
const TEXT: &[u8] = b"2: lost
3: #1 1>2 forward 0 1
4: #2 2>1 ack 0 1 1
3: committed 1
5: value 1 at 1
6: node 1 epoch 0 count 1 committed 1 floor 0 kept 0 tables 0 0 0 0 0 0 0
7: node 2 epoch 0 count 1 committed 1 floor 0 kept 0 tables 0 0 0 0 0 0 0
";

// What is printed of the script over a carrier.
fn text_over<C: Carrier + Drop>(rt: &impl Abort, alloc: Global, carrier: C) -> Vec<u8> {
    let script = read_script(alloc, SCRIPT, true).ok().expect(rt, "a script");
    let setup = &script.setup;
    let made = World::created(alloc, &setup.configs, carrier, &setup.limits);
    let mut world = made.expect(rt, "a world");
    let mut text = Vec::new(alloc);
    let ran = run_script(alloc, &script, &mut world, &mut text);
    world.close();
    ran.ok().expect(rt, "a run");
    text
}

#[test]
fn a_run_behind_a_closed_connection(rt: HostRuntime) {
    let (carrier, address) = carrier_at(&rt, rt);
    drop(connected(&rt, &rt, address));
    let text = text_over(&rt, rt.alloc(), carrier);
    is_so(&rt, is_same(&text, TEXT), "the lines");
}
