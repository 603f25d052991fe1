//! Times `potentials` of `tree_potentials`, `direction` of `tree_flows` and `ratio` of `ratio_test` on chains, stars and cycles.

ghost use Rattle.std.specs.Prelude.{◌≡◌, ◌≤◌, ◌∷◌, [], true, IfOk};
ghost use Rattle.np_model.specs.declared.phase.Phase.TheVariants.{Two};
ghost use Rattle.np_model.specs.Basis.Phases.{phase_net};
ghost use Rattle.np_model.specs.Basis.Sound.{IsInNet};
ghost use Rattle.tree_flows.specs.Answers.{CanEnter, IsAnswer};
ghost use Rattle.ratio_test.specs.Asked.{AreWithin, IsOutside, IsAlong};

mod moves;
mod network;
mod piece;
mod shape;

use crate::pieces::moves::{directed, tested};
use crate::pieces::network::network_of;
use crate::pieces::piece::piece_of;
use crate::pieces::shape::Shape;
use np_model::{Direction, FullNet, Phase};
use quasi_tree::Quasi;
use ratio_test::RatioAnswer;
use std::alloc::Global;
use std::io;
use std::time::Instant;
use tree_potentials::{PotentialRefusal, potentials};

/// The numbers of nodes.
const SIZES: [u32; 3] = [10, 1_000, 20_000];

// Finds the potentials of the piece so many times.
fn repeated(
    alloc: Global,
    full: &FullNet,
    piece: &mut Quasi,
    rounds: u32,
) -> Result<(), PotentialRefusal>
    requires { IsInNet (phase_net Two full.now) piece.old.lists }
{
    for _ in 0..rounds {
        potentials(alloc, full, Phase::Two, piece)?;
    }
    Ok(())
}

// The sum of the sizes of the numerators.
fn digest(piece: &Quasi) -> u64 {
    let mut sum = 0u64;
    for node in piece.lists().nodes.items.as_slice() {
        let size = node.1.num().unsigned_abs() % (1 << 64);
        sum = sum.wrapping_add(size as u64);
    }
    sum
}

// How many nanoseconds so many rounds take.
fn clocked(rt: HostRuntime, full: &FullNet, piece: &mut Quasi, rounds: u32) -> io::Result<u128>
    requires { IsInNet (phase_net Two full.now) piece.old.lists }
{
    let start = Instant::now(&rt)?;
    let answer = repeated(rt.alloc(), full, piece, rounds);
    let nanos = start.elapsed(&rt)?.as_nanos();
    match answer {
        Ok(()) => Ok(nanos),
        Err(_) => Err(io::Error::from(io::ErrorKind::Other)),
    }
}

// How many nanoseconds so many directions of the arc take, and the direction.
fn clocked_directions(
    rt: HostRuntime,
    full: &FullNet,
    piece: &Quasi,
    enter: u32,
    rounds: u32,
) -> io::Result<(u128, Direction)>
    requires { CanEnter (phase_net Two full.now) (piece.now.lists ∷ []) enter }
    ensures { IfOk result (λ found. IsAnswer (phase_net Two full.now) (piece.now.lists ∷ []) enter true found.1) }
{
    let start = Instant::now(&rt)?;
    let answer = directed(rt.alloc(), full, piece, enter, rounds);
    let nanos = start.elapsed(&rt)?.as_nanos();
    match answer {
        Ok(found) => Ok((nanos, found)),
        Err(_) => Err(io::Error::from(io::ErrorKind::Other)),
    }
}

// How many nanoseconds so many ratio tests take, and the arc that leaves.
fn clocked_ratios(
    rt: HostRuntime,
    full: &FullNet,
    piece: &Quasi,
    found: &Direction,
    rounds: u32,
) -> io::Result<(u128, u32)>
    requires within { AreWithin (phase_net Two full.now) (piece.now.lists ∷ []) }
    requires outside { IsOutside (phase_net Two full.now) (piece.now.lists ∷ []) found.now.enter }
    requires along { IsAlong (piece.now.lists ∷ []) found.now }
{
    let start = Instant::now(&rt)?;
    let answer = tested(full, piece, found, rounds);
    let nanos = start.elapsed(&rt)?.as_nanos();
    match answer {
        Ok(RatioAnswer::Leave { arc, .. }) => Ok((nanos, arc)),
        Ok(_) => Ok((nanos, found.enter)),
        Err(_) => Err(io::Error::from(io::ErrorKind::Other)),
    }
}

// Times directions and ratio tests of the last artificial arc of a shape with so many nodes, and prints their lines.
fn timed_moves(rt: HostRuntime, name: &str, shape: Shape, nodes: u32, count: u32) -> io::Result<()>
    requires some { 2 ≤ nodes }
    requires few { nodes ≤ 20000 }
{
    let full = network_of(rt.alloc(), shape, nodes)?;
    let piece = piece_of(rt.alloc(), shape, nodes)?;
    let rounds = (count / nodes).max(1);
    let all = (u128::from(rounds) + 1) * u128::from(nodes);
    let (nanos, found) = clocked_directions(rt, &full, &piece, nodes + (nodes - 1), rounds)?;
    let each = nanos / all;
    let steps = found.steps.as_slice().len();
    println!(rt; "{name}-direction {nodes} {each} {steps}")?;
    let (nanos, leaves) = clocked_ratios(rt, &full, &piece, &found, rounds)?;
    let each = nanos / all;
    println!(rt; "{name}-ratio {nodes} {each} {leaves}")?;
    Ok(())
}

// Times a shape with so many nodes, and prints its line.
fn timed(rt: HostRuntime, name: &str, shape: Shape, nodes: u32, count: u32) -> io::Result<()>
    requires some { 2 ≤ nodes }
    requires few { nodes ≤ 20000 }
{
    let full = network_of(rt.alloc(), shape, nodes)?;
    let mut piece = piece_of(rt.alloc(), shape, nodes)?;
    let rounds = (count / nodes).max(1);
    let nanos = clocked(rt, &full, &mut piece, rounds)?;
    let each = nanos / (u128::from(rounds) * u128::from(nodes));
    let sum = digest(&piece);
    println!(rt; "{name} {nodes} {each} {sum}")?;
    Ok(())
}

/// Finds about so many potentials of nodes, for each shape and size, and prints the nanoseconds of a node and a digest of the potentials; and
/// the same of directions and ratio tests, with the number of their steps and the arc that leaves.
pub(crate) fn run(rt: HostRuntime, count: u32) -> io::Result<()> {
    for (shape, name) in [
        (Shape::Chain, "chain"),
        (Shape::Star, "star"),
        (Shape::Cycle, "cycle"),
    ] {
        for nodes in SIZES {
            timed(rt, name, shape, nodes, count)?;
            timed_moves(rt, name, shape, nodes, count)?;
        }
    }
    Ok(())
}
