ghost use Rattle.std.specs.Prelude.{◌≡◌};
ghost use Rattle.pddl_tokens.specs.Numbers.{IsScale};
ghost use Rattle.pddl_tokens.specs.Trees.{trees_of};
ghost use Rattle.std.specs.Prelude.{nat_lt, ◌&&◌};
ghost use Rattle.std.specs.List.{list_any};
ghost use Rattle.pddl_parts.specs.First.{first};
ghost use Rattle.pddl_parts.specs.Settings.{setting_of};
ghost use Rattle.pddl_problem.specs.Literals.{object_faults, arguments_faults, ground_faults, is_dated, is_fact, denied_faults, negated_faults, is_assignment, undone_faults, ending_faults, literal_faults, is_below_zero, time_faults, dated_literal_faults, dated_faults};

use pddl_parts::{
    Context, Fault, Kind, Table, arity_fault, begins_with, earlier, fault, is_atom_word,
    is_head_word, is_left_out, is_literal, is_name, known_fault, misfit_list, misfit_word,
    name_fault, numeral_fault, surplus_fault,
};
use pddl_tokens::{Form, Head, Word, head_of, is_numeral};

/// What is wrong with a word where an object is to stand.
fn object_fault(context: &Context<'_>, word: &Word) -> Option<Fault>
    ensures { result ≡ first (object_faults (setting_of context.now) word.now.at word.now.text) }
{
    let text = word.text.as_slice();
    if is_left_out(text) {
        fault(Kind::LeftOut, word.at)
    } else if is_name(word) {
        known_fault(context.scope.objects.has(text), word.at)
    } else {
        fault(Kind::Shape, word.at)
    }
}

/// The first fault of some objects.
#[tactic(auto, using(pddl_parts::proofs::Firsts::first_onto))]
fn arguments_fault(context: &Context<'_>, forms: &[Form]) -> Option<Fault>
    ensures { result ≡ first (arguments_faults (setting_of context.now) (trees_of forms.now)) }
{
    let mut best = None;
    let mut rest = forms;
    'arguments: loop {
        match head_of(rest) {
            Head::Missing => return best,
            Head::Word(word, more) => {
                best = earlier(best, object_fault(context, word));
                rest = more;
            }
            Head::List {
                at,
                parts,
                rest: more,
                ..
            } => {
                best = earlier(best, misfit_list(at, parts));
                rest = more;
            }
        }
    }
}

/// The first fault of a list of a name of this table and objects.
#[tactic(auto, using(pddl_parts::proofs::Firsts::first_append))]
pub fn ground_fault(
    context: &Context<'_>,
    table: &Table,
    at: u32,
    head: &Word,
    arguments: &[Form],
) -> Option<Fault>
    ensures { result ≡ first (ground_faults (setting_of context.now) table.now at head.now.at
        head.now.text (trees_of arguments.now)) }
{
    let arity = arity_fault(table.value(head.text.as_slice()), head.at, at, arguments);
    earlier(
        name_fault(head),
        earlier(arity, arguments_fault(context, arguments)),
    )
}

/// Whether a numeral and a list come first, as behind `at` in a timed literal.
pub fn is_dated(forms: &[Form]) -> bool
    ensures { result ≡ is_dated (trees_of forms.now) }
{
    match head_of(forms) {
        Head::Missing | Head::List { .. } => false,
        Head::Word(word, rest) => {
            match head_of(rest) {
                Head::Missing | Head::Word(..) => false,
                Head::List { .. } => is_numeral(word),
            }
        }
    }
}

/// Whether an element of `:init` is an atom by its first word, and has no other form.
pub fn is_fact(head: &Word, rest: &[Form]) -> bool
    ensures { result ≡ is_fact head.now.text (trees_of rest.now) }
{
    let text = head.text.as_slice();
    is_head_word(head) && !(text == b"=".as_slice() || (text == b"at".as_slice() && is_dated(rest)))
}

/// The first fault of a list behind `not`, which stands at `before`.
fn denied_fault(context: &Context<'_>, before: u32, at: u32, parts: &[Form]) -> Option<Fault>
    ensures { result ≡ first (denied_faults (setting_of context.now) before at
        (trees_of parts.now)) }
{
    match head_of(parts) {
        Head::Missing | Head::List { .. } => fault(Kind::LeftOut, before),
        Head::Word(head, rest) => {
            if is_literal(head, rest) {
                ground_fault(context, &context.scope.predicates, at, head, rest)
            } else {
                fault(Kind::LeftOut, before)
            }
        }
    }
}

/// The first fault behind `not`, which stands at `before`.
#[tactic(auto, using(pddl_parts::proofs::Firsts::first_append))]
pub fn negated_fault(
    context: &Context<'_>,
    before: u32,
    close: u32,
    members: &[Form],
) -> Option<Fault>
    ensures { result ≡ first (negated_faults (setting_of context.now) before close
        (trees_of members.now)) }
{
    match head_of(members) {
        Head::Missing => fault(Kind::Shape, close),
        Head::Word(_, rest) => earlier(fault(Kind::LeftOut, before), surplus_fault(rest)),
        Head::List {
            at,
            parts,
            rest,
            ..
        } => earlier(
            denied_fault(context, before, at, parts),
            surplus_fault(rest),
        ),
    }
}

fn is_assignment(text: &[u8]) -> bool
    ensures { result ≡ is_assignment text.now }
{
    text == b"=".as_slice() || text == b"assign".as_slice()
}

/// The first fault of a list behind `not` in a timed literal.
fn undone_fault(context: &Context<'_>, before: u32, at: u32, parts: &[Form]) -> Option<Fault>
    ensures { result ≡ first (undone_faults (setting_of context.now) before at
        (trees_of parts.now)) }
{
    match head_of(parts) {
        Head::Missing | Head::List { .. } => fault(Kind::LeftOut, before),
        Head::Word(head, rest) => {
            if !is_literal(head, rest) {
                fault(Kind::LeftOut, before)
            } else if is_assignment(head.text.as_slice()) {
                fault(Kind::LeftOut, head.at)
            } else {
                ground_fault(context, &context.scope.predicates, at, head, rest)
            }
        }
    }
}

/// The first fault behind `not` in a timed literal.
#[tactic(auto, using(pddl_parts::proofs::Firsts::first_append))]
fn ending_fault(context: &Context<'_>, before: u32, close: u32, members: &[Form]) -> Option<Fault>
    ensures { result ≡ first (ending_faults (setting_of context.now) before close
        (trees_of members.now)) }
{
    match head_of(members) {
        Head::Missing => fault(Kind::Shape, close),
        Head::Word(_, rest) => earlier(fault(Kind::LeftOut, before), surplus_fault(rest)),
        Head::List {
            at,
            parts,
            rest,
            ..
        } => earlier(
            undone_fault(context, before, at, parts),
            surplus_fault(rest),
        ),
    }
}

/// The first fault of a list that is to be a timed literal.
fn literal_fault(context: &Context<'_>, at: u32, close: u32, parts: &[Form]) -> Option<Fault>
    ensures { result ≡ first (literal_faults (setting_of context.now) at close
        (trees_of parts.now)) }
{
    match head_of(parts) {
        Head::Missing | Head::List { .. } => misfit_list(at, parts),
        Head::Word(head, rest) => {
            let text = head.text.as_slice();
            if text == b"not".as_slice() {
                ending_fault(context, head.at, close, rest)
            } else if is_assignment(text) {
                fault(Kind::LeftOut, head.at)
            } else if is_atom_word(head) {
                ground_fault(context, &context.scope.predicates, at, head, rest)
            } else {
                misfit_list(at, parts)
            }
        }
    }
}

fn has_digit(text: &[u8]) -> bool
    ensures { result ≡ list_any (λ c. nat_lt 48 c && nat_lt c 58) text.now }
{
    text.iter().any(|c| *c > b'0' && *c < b':')
}

/// Whether a numeral is below 0: it has a minus and a digit that is not 0.
pub fn is_below_zero(text: &[u8]) -> bool
    ensures { result ≡ is_below_zero text.now }
{
    begins_with(b'-', text) && has_digit(text)
}

fn time_fault(context: &Context<'_>, word: &Word) -> Option<Fault>
    requires { IsScale context.now.scale }
    ensures { result ≡ first (time_faults (setting_of context.now) word.now.at word.now.text) }
{
    if is_below_zero(word.text.as_slice()) {
        fault(Kind::Shape, word.at)
    } else {
        numeral_fault(context, word)
    }
}

#[tactic(auto, using(pddl_parts::proofs::Firsts::first_append))]
fn dated_literal_fault(context: &Context<'_>, members: &[Form]) -> Option<Fault>
    ensures { result ≡ first (dated_literal_faults (setting_of context.now)
        (trees_of members.now)) }
{
    match head_of(members) {
        Head::Missing => None,
        Head::Word(word, rest) => earlier(misfit_word(word), surplus_fault(rest)),
        Head::List {
            at,
            close,
            parts,
            rest,
        } => earlier(
            literal_fault(context, at, close, parts),
            surplus_fault(rest),
        ),
    }
}

/// The first fault behind `at` of a timed literal; times are whole at the scale and not below 0.
#[tactic(auto, using(pddl_parts::proofs::Firsts::first_append))]
pub fn dated_fault(context: &Context<'_>, members: &[Form]) -> Option<Fault>
    requires { IsScale context.now.scale }
    ensures { result ≡ first (dated_faults (setting_of context.now) (trees_of members.now)) }
{
    match head_of(members) {
        Head::Missing => None,
        Head::List {
            at,
            parts,
            rest,
            ..
        } => earlier(misfit_list(at, parts), dated_literal_fault(context, rest)),
        Head::Word(word, rest) => earlier(
            time_fault(context, word),
            dated_literal_fault(context, rest),
        ),
    }
}
