// Runs the three wires on the same three posts, batch 0 by room 1, batch 1 by room 0, batch 2 by room 1, and prints in
// which order each numbers them and tells them to rooms; and what becomes of wishes on the directed wire.
#![tactic(auto)]

use batches::{BatchDraft, SealedBatch, Step};
use refusals::Refusal;
use std::{fmt, io};
use wire::Wire;
use wires::{AnyWire, WireKind};

// Any sealed batch: here only its number and its poster matter.
fn some_batch() -> Result<SealedBatch, Refusal> {
    let mut draft = BatchDraft::write(1)?;
    draft.add_step(Step::Add { base: 0, amount: 1 })?;
    Ok(draft.seal()?)
}

// The posts by rooms 1, 0 and 1.
fn post_three(wire: &mut AnyWire) -> Result<(), Refusal> {
    for room in [1, 0, 1] {
        wire.post(room, some_batch()?)?;
    }
    Ok(())
}

// A wire's answer: the batch that it chose, or why it refused.
#[derive(Drop)]
struct Answer(Result<u16, Refusal>);

impl fmt::Display for Answer {
    fn fmt<W: fmt::Write>(&self, f: &mut fmt::Formatter<W>) -> fmt::Result {
        match self.0 {
            Ok(batch) => write!(f, " {batch}"),
            Err(cause) => write!(f, " refused with {}", u8::from(cause)),
        }
    }
}

// Four answers in a row.
fn print_four<F: FnMut() -> Result<u16, Refusal>>(rt: &HostRuntime, mut ask: F) -> io::Result<()>
    requires { F.IsAlwaysCallable ask }
{
    for _ in 0..4 {
        print!(rt; "{}", Answer(ask()))?;
    }
    println!(rt; "")
}

// A new wire of a kind.
fn open(rt: &HostRuntime, kind: WireKind, name: &str) -> io::Result<AnyWire> {
    println!(rt; "{name}")?;
    Ok(AnyWire::open_kind(rt.alloc(), kind)?)
}

// Posts, then numbers all and tells rooms 0, 1 and 2, and 8, which is none.
fn run(rt: &HostRuntime, wire: &mut AnyWire) -> io::Result<()> {
    if post_three(wire).is_err() {
        println!(rt; "  a post is refused")?;
    }
    print!(rt; "  numbers:")?;
    print_four(rt, || wire.number())?;
    for room in [0, 1, 2, 8] {
        print!(rt; "  tells room {room}:")?;
        print_four(rt, || wire.tell_tentatively(room))?;
    }
    Ok(())
}

fn main(rt: HostRuntime) -> io::Result<()> {
    run(&rt, &mut open(&rt, WireKind::Sequenced, "sequenced")?)?;
    run(&rt, &mut open(&rt, WireKind::Turn, "turn")?)?;
    run(
        &rt,
        &mut open(&rt, WireKind::Directed, "directed, no wish")?,
    )?;
    let mut wire = open(
        &rt,
        WireKind::Directed,
        "directed, wishes 1, then 2: the later one counts, and is used up",
    )?;
    wire.wish(1);
    wire.wish(2);
    run(&rt, &mut wire)?;
    let mut wire = open(
        &rt,
        WireKind::Directed,
        "directed, wishes 7, which is not posted: used up too",
    )?;
    wire.wish(7);
    run(&rt, &mut wire)?;
    let mut wire = open(
        &rt,
        WireKind::Directed,
        "directed, wishes 1, and a refused numbering keeps it",
    )?;
    wire.wish(1);
    println!(rt; "  number:{}", Answer(wire.number()))?;
    run(&rt, &mut wire)
}
