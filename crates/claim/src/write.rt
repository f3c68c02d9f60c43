// The rows of a claim, written one after the other, and made a sheet.
ghost use Rattle.std.specs.Prelude.{◌≡◌, [], ◌∷◌, map, ◌+◌, ◌*◌, ◌≤◌, ◌<◌, length};
ghost use Rattle.std.proofs.Math.Seq.{slice};
ghost use Rattle.formula.specs.Tree.{dual};
ghost use Rattle.sheet.specs.Format.{row};
ghost use Rattle.sheet.specs.Sheet.{operator_kind, quantifier_kind, sheet};
ghost use Rattle.sheet.specs.Operations.{padded};
ghost use Rattle.rows.specs.Layouts.{format_in, Fits, total, rows_in, Room};
ghost use Rattle.rows.specs.Formulas.{prefix_in};
ghost use Rattle.pair_tests.specs.Pairs.{side, pairs_in, Paired};
ghost use Rattle.substitution.specs.Output.{extent, Within, CopyReady, Laid};
ghost use Rattle.claim.specs.Inner.Writing.{Source, of_kind, negated_kind, negated_row, differs_in, differ_rows, front_rows, claimed, Claimable};

use prefixes::bound_at;
use rows::read::{argument_at, kind_at};
use rows::write::seal;
use rows::{AND, EXISTS, FOR_ALL, Layout, NEGATIVE, OR, POSITIVE};
use substitution::write::{write_row, write_rows};
use substitution::{Span, Target};

// A strategy's sheet: its layout, and whether its side is the existential one.
#[derive(Clone, Copy)]
pub struct Strategy {
    pub layout: Layout,
    pub exists: bool,
}

// The quantifier of every row of the claim, the other side's.
fn quantifier_for(exists: bool) -> u8
    ensures { result ≡ quantifier_kind (dual (side exists)) }
{
    if exists {
        return FOR_ALL;
    }
    EXISTS
}

// The operator that joins the copies of a side's variables.
fn operator_for(exists: bool) -> u8
    ensures { result ≡ operator_kind (side exists) }
{
    if exists {
        return OR;
    }
    AND
}

// Writes the prefix of `b` as the first rows of the layout `t`, each of the quantifier `kind`, and returns the row behind them.
fn write_quantifiers(b: &[u8], s: Layout, kind: u8, out: &mut [u8], t: Layout) -> usize
    requires { Source s b.now × CopyReady s b.now t out.old × (s.variables ≤ total t) }
    ensures { Laid t out.old out.new 0 result (map (of_kind kind) (prefix_in s b.now)) }
{
    for i in 0..s.variables {
        let here = Target { layout: t, at: i };
        write_row(out, here, kind, bound_at(b, s, i));
    }
    s.variables
}

// The kind that a row has in a negated copy.
fn negated_kind(kind: u8) -> u8
    ensures { result ≡ negated_kind kind }
{
    if kind == POSITIVE {
        return NEGATIVE;
    }
    if kind == NEGATIVE {
        return POSITIVE;
    }
    if kind == AND {
        return OR;
    }
    AND
}

// Writes the rows `span` of `b` negated: literals and operators exchanged.
fn write_negated(b: &[u8], s: Layout, span: Span, out: &mut [u8], to: Target) -> usize
    requires { Source s b.now × CopyReady s b.now to.layout out.old × Within span s × (to.at + extent span ≤ total to.layout) }
    ensures { Laid to.layout out.old out.new to.at result (map negated_row (slice span.from span.to (rows_in s b.now))) }
{
    let t = to.layout;
    let mut at = to.at;
    for r in span.from..span.to {
        let here = Target { layout: t, at };
        let kind = negated_kind(kind_at(b, s, r));
        at = write_row(out, here, kind, argument_at(b, s, r));
    }
    at
}

// Writes an operator of two children and the first of them, a literal of the variable `x`.
fn write_head(out: &mut [u8], to: Target, kind: u8, literal: u8, x: usize) -> usize
    requires { Room to.layout (length out.old) × (to.at + 2 ≤ total to.layout) × Fits to.layout x }
    ensures { Laid to.layout out.old out.new to.at result (row kind 2 ∷ row literal x ∷ []) }
{
    let t = to.layout;
    let at = write_row(out, to, kind, 2);
    let below = Target { layout: t, at };
    write_row(out, below, literal, x)
}

// Writes the two children for a pair, each an operator of the kind `kind`: the variable and its function's negation, and the variable's
// negation and its function. The function's rows are `span`, and the row in front of them has the variable.
fn write_pair(b: &[u8], s: Layout, kind: u8, span: Span, out: &mut [u8], to: Target) -> usize
    requires { Source s b.now × CopyReady s b.now to.layout out.old × Within span s × (0 < span.from) × (to.at + 4 + 2 * extent span ≤ total to.layout) }
    ensures { Laid to.layout out.old out.new to.at result (differs_in kind s b.now span) }
{
    let t = to.layout;
    let x = argument_at(b, s, span.from - 1);
    let first = write_head(out, to, kind, POSITIVE, x);
    let negated = Target {
        layout: t,
        at: first,
    };
    let second = write_negated(b, s, span, out, negated);
    let again = Target {
        layout: t,
        at: second,
    };
    let last = write_head(out, again, kind, NEGATIVE, x);
    let plain = Target {
        layout: t,
        at: last,
    };
    write_rows(b, s, span, out, plain)
}

// Writes the two children of each pair.
fn write_pairs(b: &[u8], s: Layout, kind: u8, cuts: &[u16], out: &mut [u8], to: Target) -> usize
    requires { Source s b.now × Paired s b.now cuts.now × CopyReady s b.now to.layout out.old × (to.at + length (differ_rows kind (pairs_in s b.now)) ≤ total to.layout) }
    ensures { Laid to.layout out.old out.new to.at result (differ_rows kind (pairs_in s b.now)) }
{
    let t = to.layout;
    let v = s.variables;
    let mut at = to.at;
    for j in 0..cuts.len() - 1 {
        let function = Span {
            from: v + usize::from(cuts[j]) + 2,
            to: v + usize::from(cuts[j + 1]),
        };
        let here = Target { layout: t, at };
        at = write_pair(b, s, kind, function, out, here);
    }
    at
}

// Writes what stands in front of the pairs' children: the prefix, the root of so many children, and the first matrix.
fn write_front(
    b: &[u8],
    s: Layout,
    exists: bool,
    children: usize,
    out: &mut [u8],
    t: Layout,
) -> usize
    requires { Source s b.now × CopyReady s b.now t out.old × (s.variables + 1 + s.nodes ≤ total t) × Fits t children }
    ensures laid { Laid t out.old out.new 0 result (front_rows (side exists) s b.now children) }
    ensures value { result ≡ s.variables + 1 + s.nodes }
{
    let matrix = Span {
        from: s.variables,
        to: s.variables + s.nodes,
    };
    let top = write_quantifiers(b, s, quantifier_for(exists), out, t);
    let root = Target { layout: t, at: top };
    let at = write_row(out, root, operator_for(exists), children);
    let below = Target { layout: t, at };
    write_rows(b, s, matrix, out, below)
}

// Writes the claim of a strategy to the front of `out`, with zeros behind it, and returns its length.
pub fn claim_into(
    b: &[u8],
    s: Layout,
    d: &[u8],
    strategy: Strategy,
    cuts: &[u16],
    out: &mut [u8],
) -> usize
    requires { Claimable b.now s d.now strategy cuts.now (length out.old) }
    ensures out_after { out.new ≡ padded (length out.old) (sheet (format_in s) (claimed b.now s d.now strategy)) }
    ensures value { result ≡ length (sheet (format_in s) (claimed b.now s d.now strategy)) }
{
    let f = s.format;
    let r = strategy.layout;
    let exists = strategy.exists;
    let t = Layout {
        format: f,
        variables: s.variables,
        nodes: s.nodes + 2 * r.nodes - 1,
    };
    let front = write_front(b, s, exists, 2 * cuts.len() - 1, out, t);
    let behind = Target {
        layout: t,
        at: front,
    };
    write_pairs(d, r, operator_for(!exists), cuts, out, behind);
    seal(out, t, s.variables + t.nodes)
}
