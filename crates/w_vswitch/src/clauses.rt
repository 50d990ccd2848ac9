//! The clauses of a `resume`.
ghost use Rattle.std.specs.Prelude.{◌≡◌, ◌↔◌, ℕ, ◌∷◌, [], All, IsTrue, Some, List, slice_get};
ghost use Rattle.lists.specs.Rows.{row_of};
ghost use Rattle.w_rules.specs.Conditions.{ClauseTyped, LabelClauseTyped, SwitchClauseTyped};
ghost use Rattle.w_rules.specs.Peak.{clause_tops};
ghost use Rattle.w_rows.specs.TypeRows.{IsReady, AreReadyRows, rows_type};
ghost use Rattle.w_vplain.specs.Row.{above};
ghost use Rattle.w_vswitch.specs.Places.{Anywhere, AtEnds};
ghost use Rattle.w_vswitch.specs.Rows.{label_test};
ghost use Rattle.w_vplain.specs.Standing.{classes_for};

use crate::continuations::last_index;
use w_canon::Classes;
use w_rows::{FuncRows, TypeRow};
use w_steps::Setting;
use w_syntax::Clause;
use w_vplain::Checker;

// Whether a tag, what a label takes beneath a continuation, and the continuation's type fit in a resume with these results.
fn label_matches(
    classes: &Classes,
    results: TypeRow,
    tag: FuncRows,
    beneath: TypeRow,
    target: FuncRows,
) -> bool
    requires results { IsReady classes.now results }
    requires tag { AreReadyRows classes.now tag }
    requires beneath { IsReady classes.now beneath }
    requires target { AreReadyRows classes.now target }
    ensures { result ≡ label_test classes.now results.entry.types.now (rows_type tag.entry) beneath.entry.types.now (rows_type target.entry) }
{
    tag.params.matches(classes, beneath)
        && target.params.matches(classes, tag.results)
        && results.matches(classes, target.results)
}

// Whether the rules type a clause with a label, which takes these types.
fn label_clause_fits(setting: &Setting, results: TypeRow, tag: u32, label: TypeRow) -> bool
    requires results { IsReady setting.now.cx.now.classes.now results }
    requires label { IsReady setting.now.cx.now.classes.now label }
    ensures { Anywhere setting.now.cx.now (λ c. (l : ℕ) → slice_get c.labels l ≡ Some (row_of label.entry.types.now)
        → IsTrue result ↔ LabelClauseTyped c results.entry.types.now tag l) }
{
    let Some(tag) = setting.type_of_tag(tag) else {
        return false;
    };
    let Some((beneath, index)) = last_index(label.types) else {
        return false;
    };
    let classes = setting.cx.classes;
    let (beneath, _) = label.split_at(classes, beneath.len());
    match setting.cont_of(index) {
        Some(target) => label_matches(classes, results, tag, beneath, target),
        None => false,
    }
}

// Whether the rules type a clause with `switch`.
fn switch_clause_fits(setting: &Setting, results: TypeRow, tag: u32) -> bool
    requires { IsReady setting.now.cx.now.classes.now results }
    ensures { Anywhere setting.now.cx.now (λ c. IsTrue result ↔ SwitchClauseTyped c results.entry.types.now tag) }
{
    match setting.type_of_tag(tag) {
        Some(tag) => {
            tag.params.types.len() == 0 && tag.results.equals(setting.cx.classes, results)
        }
        None => false,
    }
}

// Whether the rules type a clause of a resume with these results, where the checker stands.
fn clause_fits(checker: &Checker, results: TypeRow, clause: &Clause) -> bool
    requires { IsReady (classes_for checker.now) results }
    ensures { AtEnds checker.now (λ c. IsTrue result ↔ ClauseTyped c results.entry.types.now clause.now) }
{
    let setting = checker.setting();
    match clause {
        Clause::Label(tag, label) => match checker.label(*label) {
            Some(row) => label_clause_fits(&setting, results, *tag, row),
            None => false,
        },
        Clause::Switch(tag) => switch_clause_fits(&setting, results, *tag),
    }
}

// Whether two clauses are the same.
fn is_same(one: &Clause, other: &Clause) -> bool
    ensures { IsTrue result → one.now ≡ other.now }
{
    match (one, other) {
        (Clause::Label(one_tag, one_label), Clause::Label(other_tag, other_label)) => {
            one_tag == other_tag && one_label == other_label
        }
        (Clause::Switch(one_tag), Clause::Switch(other_tag)) => one_tag == other_tag,
        _ => false,
    }
}

// Whether the rules type a clause, where they type the last one, which is not judged again if it is the same.
fn fits_again(checker: &Checker, results: TypeRow, last: &Clause, clause: &Clause) -> bool
    requires { IsReady (classes_for checker.now) results }
    ensures { AtEnds checker.now (λ c. ClauseTyped c results.entry.types.now last.now
        → IsTrue result ↔ ClauseTyped c results.entry.types.now clause.now) }
{
    is_same(last, clause) || clause_fits(checker, results, clause)
}

/// Whether the rules type each clause of a resume with these results, where the checker stands.
pub(crate) fn clauses_fit(checker: &Checker, results: TypeRow, clauses: &[Clause]) -> bool
    requires { IsReady (classes_for checker.now) results }
    ensures { AtEnds checker.now (λ c. IsTrue result
        ↔ All (ClauseTyped c results.entry.types.now) clauses.now) }
{
    if clauses.is_empty() {
        return true;
    }
    if !clause_fits(checker, results, &clauses[0]) {
        return false;
    }
    for index in 1..clauses.len() {
        if !fits_again(checker, results, &clauses[index - 1], &clauses[index]) {
            return false;
        }
    }
    true
}

// How many types a clause's label takes, if it has one.
fn label_size(checker: &Checker, clause: &Clause) -> Option<u64>
    ensures { AtEnds checker.now (λ c. (h : ℕ) → clause_tops c.labels h (clause.now ∷ [])
        ≡ above 0 result h) }
{
    match clause {
        Clause::Label(_, label) => match checker.label(*label) {
            Some(row) => Some(row.types.len() as u64),
            None => None,
        },
        Clause::Switch(_) => None,
    }
}

/// How many types the longest label of clauses takes, if one has a label.
pub(crate) fn longest_label(checker: &Checker, clauses: &[Clause]) -> Option<u64>
    ensures { AtEnds checker.now (λ c. (h : ℕ) → clause_tops c.labels h clauses.now
        ≡ above 0 result h) }
{
    let mut longest = None;
    for clause in clauses {
        longest = longest.max(label_size(checker, clause));
    }
    longest
}
