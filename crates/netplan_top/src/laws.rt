//! Laws of what is read and of what is said of it, as the clauses of functions that do nothing.

ghost use Rattle.std.specs.Prelude.{◌≡◌, ◌≤◌, ◌++◌, ℕ, Bool, List, length, map};
ghost use Rattle.std.specs.List.{flat_map};
ghost use Rattle.np_model.specs.declared.scheme.Scheme.{Scheme};
ghost use Rattle.np_model.specs.declared.plan.Plan.{Plan};
ghost use Rattle.np_model.specs.Scheme.Plans.{staged, scheme_cost, price_gap};
ghost use Rattle.np_model.specs.Scheme.Segments.{Stage};
ghost use Rattle.np_model.specs.Scheme.Fits.{PlanFits};
ghost use Rattle.np_records.specs.Records.{records_of};
ghost use Rattle.np_records.specs.Texts.{records_text};
ghost use Rattle.net_csv.specs.Writing.{rows_of};
ghost use Rattle.certificates.specs.Writing.{plan_rows, told, HasFractions};
ghost use Rattle.cert_checker.specs.Walk.{walk};
ghost use Rattle.cert_checker.specs.declared.answer.Checked.TheVariants as checked;
ghost use Rattle.convex_arcs.specs.Segments.{flat_arcs};
ghost use Rattle.netplan_top.specs.declared.words.Command.{Command};
ghost use Rattle.netplan_top.specs.declared.words.Job.{Job};
ghost use Rattle.netplan_top.specs.Commands.Check.{StandsFor, IsReadBehind, IsCheckAnswer};
ghost use Rattle.netplan_top.specs.Commands.Answers.{longest, AnswerOf, HasAnswer, MakesNoRun};
ghost use Rattle.netplan_top.specs.Commands.Solve.{Solves, IsOptimal, IsInfeasible, IsUnbounded, IsSolveAnswer};
ghost use Rattle.netplan_top.specs.Texts.Checked.{check_text, accepted_line};
ghost use Rattle.netplan_top.specs.Texts.Network.{numbered_segments, segment_arc, arc_records};

use cert_checker::laws::{walk_ends, walk_proves};
use certificates::laws::{one_plan, some_plan, written_plans_are_read};
use net_csv::laws::{one_scheme, texts_stand_for_schemes, written_schemes_are_read};
use np_frac::laws::order;
use np_records::laws::records_are_few;

/// An input stands for at most one scheme and one plan.
pub fn one_reading()
    ensures scheme { (input : List ℕ) (s t : Scheme) (p q : Plan) → StandsFor input s p → StandsFor input t q → s ≡ t }
    ensures plan { (input : List ℕ) (s t : Scheme) (p q : Plan) → StandsFor input s p → StandsFor input t q → p ≡ q }
{
    one_scheme();
    one_plan();
}

/// The text of a scheme with the text of a plan behind it stands for that scheme and for what was written of the plan, and
/// the walk over that is the walk over the plan. So `check` says of the texts what the checker says of the plan.
pub fn written_inputs()
    // A plan's records behind those of its scheme, as bytes, and the two texts one behind the other.
    ensures behind { (scheme : Scheme) (plan : Plan) (log : Bool) → PlanFits scheme plan → HasFractions (told plan log)
        → IsReadBehind scheme (records_of (records_text (rows_of scheme ++ plan_rows scheme plan log))) (told plan log) }
    ensures texts { (scheme : Scheme) (plan : Plan) (log : Bool) → PlanFits scheme plan → HasFractions (told plan log)
        → IsReadBehind scheme (records_of (records_text (rows_of scheme) ++ records_text (plan_rows scheme plan log))) (told plan log) }
    ensures reads { (scheme : Scheme) (plan : Plan) (log : Bool) → PlanFits scheme plan → HasFractions (told plan log)
        → StandsFor (records_text (rows_of scheme ++ plan_rows scheme plan log)) scheme (told plan log) }
    ensures walk { (scheme : Scheme) (plan : Plan) (log : Bool) → walk scheme (told plan log) ≡ walk scheme plan }
{
    written_schemes_are_read();
    written_plans_are_read();
}

/// What `check` or `expand` says of an input, by the statuses 0, 4, 5 and 10, is one status and one text.
pub fn one_answer()
    ensures status { (command : Command) (input : List ℕ) (s t : ℕ) (x y : List ℕ) → MakesNoRun command
        → AnswerOf command input s x → AnswerOf command input t y → s ≡ t }
    ensures text { (command : Command) (input : List ℕ) (s t : ℕ) (x y : List ℕ) → MakesNoRun command
        → AnswerOf command input s x → AnswerOf command input t y → x ≡ y }
{
    one_scheme();
    one_plan();
}

/// Each input of at most 16,777,216 bytes has an answer of `check` and one of `expand`, and so, by [`one_answer`], exactly one of each.
pub fn some_answer()
    ensures { (command : Command) (input : List ℕ) → MakesNoRun command → length input ≤ longest → HasAnswer command input }
{
    records_are_few();
    texts_stand_for_schemes();
    some_plan();
    walk_proves();
    walk_ends();
}

/// Runs do not contradict each other: of one input, whatever workers, budgets and logs were asked for, `solve` says the same fault or none; of
/// optimal, infeasible and unbounded the same; and optimal plans cost the same.
pub fn one_verdict()
    ensures fault { (j k : Job) (input : List ℕ) (s t : ℕ) (x y : List ℕ) → IsSolveAnswer j input s x → IsSolveAnswer k input t y
        → s ≡ 5 → (t ≡ 5) × (x ≡ y) }
    ensures verdict { (j k : Job) (input : List ℕ) (s t : ℕ) (x y : List ℕ) → IsSolveAnswer j input s x → IsSolveAnswer k input t y
        → s ≤ 2 → t ≤ 2 → s ≡ t }
    ensures cost { (j k : Job) (input x y : List ℕ) → (a : Solves IsOptimal j input x) → (b : Solves IsOptimal k input y)
        → a.plan.amount ≡ b.plan.amount }
{
    one_scheme();
    order();
}

/// `check` accepts what `solve` prints: of the text of the scheme with a printed optimal, infeasible or unbounded plan behind it, it says
/// accepted, with the cost or the gap.
pub fn solved_plans_are_accepted()
    ensures optimal { (job : Job) (input text : List ℕ) → (a : Solves IsOptimal job input text)
        → IsCheckAnswer (records_text (rows_of a.scheme) ++ text) 0 (check_text (accepted_line (checked.Optimal (scheme_cost a.scheme a.plan.flows)))) }
    ensures infeasible { (job : Job) (input text : List ℕ) → (a : Solves IsInfeasible job input text)
        → IsCheckAnswer (records_text (rows_of a.scheme) ++ text) 0 (check_text (accepted_line (checked.Infeasible (price_gap a.scheme a.plan.prices)))) }
    ensures unbounded { (job : Job) (input text : List ℕ) → (a : Solves IsUnbounded job input text)
        → IsCheckAnswer (records_text (rows_of a.scheme) ++ text) 0 (check_text (accepted_line checked.Unbounded)) }
{
    written_schemes_are_read();
    written_plans_are_read();
}

/// The text of an expanded network lists the arcs of that network in order and no others, and its size record counts them.
pub fn listed_arcs()
    ensures arcs { (stages : List Stage) → map segment_arc (flat_map numbered_segments stages) ≡ flat_arcs stages }
    ensures count { (scheme : Scheme) → length (arc_records scheme) ≡ length (flat_arcs (staged scheme)) }
{}
