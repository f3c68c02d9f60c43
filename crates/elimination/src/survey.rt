// Where the copies of an expansion go, found before anything is written. The literals that are expanded are a set, given by a chain of
// their rows: those of one variable in Expand, those of a variable and of all that depend on it in the step one block out.
ghost use Rattle.std.specs.Prelude.{◌≡◌, ◌<◌, length};
ghost use Rattle.elimination.specs.Survey.{outline_of, Ended, Drafted, Surveys};

use raw::expand::Expansion;
use relevance::Site;
use relevance::cuts::fill_cuts;
use rows::Layout;
use subtrees::relevant::Relevant;

// What is expanded: the relevant subtree of the literals, the row of the first literal, and how many node rows the raw sheet has. And
// where: the prefix row that goes, how many variables the raw sheet has, and the kind of the operator that joins the copies.
#[derive(Clone, Copy)]
pub struct Draft {
    pub relevant: Option<Relevant>,
    pub first: usize,
    pub raw: usize,
    pub row: usize,
    pub variables: usize,
    pub joint: u8,
}

// The expansion, and how many cuts its relevant subtree's children have.
#[derive(Clone, Copy)]
pub struct Survey {
    pub cuts: usize,
    pub to: Expansion,
}

// The expansion of a draft. If there is no literal, the relevant subtree is empty and every child counts as relevant.
fn outline(s: Layout, ends: &[u16], d: Draft) -> Expansion
    requires { Ended ends.now d.relevant }
    ensures { result ≡ outline_of s ends.now d }
{
    let layout = Layout {
        format: s.format,
        variables: d.variables,
        nodes: d.raw,
    };
    match d.relevant {
        None => {
            let none = Relevant {
                operator: 0,
                all: true,
                rows: 0,
                children: 0,
            };
            Expansion {
                occurs: false,
                relevant: none,
                end: 0,
                row: d.row,
                joint: d.joint,
                layout,
            }
        }
        Some(relevant) => Expansion {
            occurs: true,
            relevant,
            end: usize::from(ends[relevant.operator]),
            row: d.row,
            joint: d.joint,
            layout,
        },
    }
}

// All that writing the raw sheet needs, except the tables of changes; the cuts are written to the front of `cuts`.
pub fn survey_draft(
    b: &[u8],
    s: Layout,
    ends: &[u16],
    next: &[u16],
    d: Draft,
    cuts: &mut [u16],
) -> Survey
    requires { Drafted s b.now ends.now next.now d × (s.nodes < length cuts.old) }
    ensures { Surveys s b.now ends.now next.now d cuts.new result }
{
    let e = outline(s, ends, d);
    if e.relevant.all {
        return Survey { cuts: 0, to: e };
    }
    let site = Site {
        operator: e.relevant.operator,
        first: d.first,
    };
    Survey {
        cuts: fill_cuts(b, s, ends, next, site, cuts),
        to: e,
    }
}
