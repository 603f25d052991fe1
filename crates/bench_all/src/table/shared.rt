//! Takes and puts over the shared table.

ghost use Rattle.std.specs.Prelude.{◌≡◌, ◌+◌, ◌<◌};
ghost use Rattle.std.specs.Thread.{IsSync};
ghost use Rattle.bench_all.specs.Visits.{IsVisitor};

use crate::table::round::{Crew, Round, Shape, Tally};
use np_model::{Hands, Piece};
use std::alloc::Global;
use std::thread::{Threads, join};
use tree_table::{Pass, Taken, TreeTable};

// Takes a piece a turn and puts it back.
fn visit<T: Piece>(
    table: &TreeTable<T>,
    mut pass: Pass<T>,
    round: Round,
    turns: u32,
) -> (Pass<T>, Tally)
    requires { IsVisitor table.now pass }
    ensures { IsVisitor table.now result.0 × (result.0.view.shares ≡ pass.view.shares) }
{
    let mut tally = Tally::new();
    for turn in 0..turns {
        match table.take(&mut pass, round.slot(turn)) {
            Taken::Piece(piece) => {
                table.put_back(&mut pass, Hands::One(piece));
                tally.taken();
            }
            Taken::Busy { word: _ } => tally.missed(),
        }
    }
    (pass, tally)
}

// Two threads, of which this is the first one's number.
fn visit_both<T: Piece, R: Threads + Sync>(
    rt: &R,
    table: &TreeTable<T>,
    one: Pass<T>,
    other: Pass<T>,
    shape: Shape,
    thread: u32,
    turns: u32,
) -> (Pass<T>, Tally)
    requires one { IsVisitor table.now one }
    requires other { IsVisitor table.now other }
    requires few { thread < 3 }
    ensures { IsVisitor table.now result.0 × (result.0.view.shares ≡ one.view.shares + other.view.shares) }
{
    let first = Round::of(shape, thread);
    let second = Round::of(shape, thread + 1);
    let ((mut one, tally), (other, more)) = join(
        rt,
        || -> (Pass<T>, Tally)
            requires { IsVisitor table.now one }
            ensures { IsVisitor table.entry.now result.0 × (result.0.view.shares ≡ one.view.shares) }
        { visit(table, one, first, turns) },
        || -> (Pass<T>, Tally)
            requires { IsVisitor table.now other }
            ensures { IsVisitor table.entry.now result.0 × (result.0.view.shares ≡ other.view.shares) }
        { visit(table, other, second, turns) },
    );
    table.fold(&mut one, other);
    (one, tally.plus(more))
}

// Four threads.
fn visit_by_four<T: Piece, R: Threads + Sync>(
    rt: &R,
    alloc: Global,
    table: &TreeTable<T>,
    mut pass: Pass<T>,
    shape: Shape,
    turns: u32,
) -> (Pass<T>, Option<Tally>)
    requires { IsVisitor table.now pass × (pass.view.shares ≡ 64) }
    ensures { IsVisitor table.now result.0 × (result.0.view.shares ≡ 64) }
{
    let Ok(mut third) = table.fork(alloc, &mut pass, 0) else {
        return (pass, None);
    };
    let Ok(second) = table.fork(alloc, &mut pass, 0) else {
        table.fold(&mut pass, third);
        return (pass, None);
    };
    let Ok(fourth) = table.fork(alloc, &mut third, 0) else {
        table.fold(&mut pass, second);
        table.fold(&mut pass, third);
        return (pass, None);
    };
    let ((mut one, tally), (other, more)) = join(
        rt,
        || -> (Pass<T>, Tally)
            requires { IsSync R.row × IsVisitor table.now pass × IsVisitor table.now second × (pass.view.shares ≡ 16) × (second.view.shares ≡ 16) }
            ensures { IsVisitor table.entry.now result.0 × (result.0.view.shares ≡ 32) }
        { visit_both(rt, table, pass, second, shape, 0, turns) },
        || -> (Pass<T>, Tally)
            requires { IsSync R.row × IsVisitor table.now third × IsVisitor table.now fourth × (third.view.shares ≡ 16) × (fourth.view.shares ≡ 16) }
            ensures { IsVisitor table.entry.now result.0 × (result.0.view.shares ≡ 32) }
        { visit_both(rt, table, third, fourth, shape, 2, turns) },
    );
    table.fold(&mut one, other);
    (one, Some(tally.plus(more)))
}

/// So many turns in each thread. The pass has all shares again at the end, also where there was no memory for the other threads' passes and so
/// there is no tally.
pub(crate) fn visited<T: Piece, R: Threads + Sync>(
    rt: &R,
    alloc: Global,
    table: &TreeTable<T>,
    mut pass: Pass<T>,
    shape: Shape,
    crew: Crew,
    turns: u32,
) -> (Pass<T>, Option<Tally>)
    requires { IsVisitor table.now pass × (pass.view.shares ≡ 64) }
    ensures { IsVisitor table.now result.0 × (result.0.view.shares ≡ 64) }
{
    match crew {
        Crew::One => {
            let (pass, tally) = visit(table, pass, Round::of(shape, 0), turns);
            (pass, Some(tally))
        }
        Crew::Two => {
            let Ok(other) = table.fork(alloc, &mut pass, 0) else {
                return (pass, None);
            };
            let (pass, tally) = visit_both(rt, table, pass, other, shape, 0, turns);
            (pass, Some(tally))
        }
        Crew::Four => visit_by_four(rt, alloc, table, pass, shape, turns),
    }
}
