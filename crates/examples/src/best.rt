// The least sheet over the paths to the leaf always.
ghost use Rattle.std.specs.Prelude.{◌≡◌};
ghost use Rattle.examples.specs.Best as spec;
ghost use Rattle.examples.specs.Needs as needs;
ghost use Rattle.facts.specs.Needs.{HasLeast};
ghost use Rattle.facts.specs.Record as facts;
ghost use Rattle.store.specs.Layout as layout;
ghost use Rattle.store.specs.Tree as tree;
ghost use Rattle.terms.specs.Order.{lex};

use facts::{Asked, Facts, Sheet, ask, least_sheet, no};
use store::{LEAVES, entry_of, question_at, wide};

// The number of fields goes along as a number, its bound a clause of three functions: a type with the bound in it would be taken off again at each use.

// The counts of the fields 1 to n, as they are compared.
fn counts(sheet: &Sheet, n: u32) -> &[u32]
    requires { needs.Fields n }
    ensures { result.now ≡ needs.sheet_of n sheet.now }
{
    &sheet.counts[1..wide(n) + 1]
}

// Whether sheet a is before sheet b, compared from field 1 to field n.
fn is_before(n: u32, a: Sheet, b: Sheet) -> bool
    requires { needs.Fields n }
    ensures { result ≡ lex (needs.sheet_of n a) (needs.sheet_of n b) }
{
    counts(&a, n) < counts(&b, n)
}

// The lesser of the best sheet so far, if any, and another.
fn lesser(n: u32, best: Option<Sheet>, sheet: Sheet) -> Option<Sheet>
    requires { needs.Fields n }
    ensures { needs.best_of n result ≡ spec.lesser (needs.best_of n best) (needs.sheet_of n sheet) }
{
    match best {
        Some(so_far) if !is_before(n, sheet, so_far) => best,
        _ => Some(sheet),
    }
}

// Whether no sheet that fits the facts is before the best so far. No `is_some_and`: the proof would have what the closure says in place of what the two
// calls say, and the check does not find it.
fn is_beaten(n: u32, best: Option<Sheet>, f: Facts) -> bool
    requires { HasLeast f n }
    ensures { result ≡ needs.beaten n (facts.state f) (needs.best_of n best) }
{
    match best {
        Some(so_far) => !is_before(n, least_sheet(f, n), so_far),
        None => false,
    }
}

// The least sheet that fits the facts and leads from a handle to always, or the best so far if that is before it. A handle whose facts leave
// no better sheet is not walked; of two parts the one with the lesser sheet comes first, so that the other is likely to be beaten.
pub fn best_from(s: &[u32], handle: usize, f: Facts, n: u32, best: Option<Sheet>) -> Option<Sheet>
    requires { needs.CanSeek s.now handle f n }
    ensures { needs.best_of n result ≡ spec.best (layout.question s.now) n (tree.tree s.now handle) (facts.state f) (needs.best_of n best) }
{
    if is_beaten(n, best, f) {
        return best;
    }
    if handle == 0 {
        return best;
    }
    if handle == 1 {
        return lesser(n, best, least_sheet(f, n));
    }
    let e = entry_of(s, handle - LEAVES);
    let yes_part = wide(e.yes);
    let no_part = wide(e.no);
    let q = question_at(s, wide(e.question));
    match ask(f, q) {
        Asked::Always => best_from(s, yes_part, f, n, best),
        Asked::Never => best_from(s, no_part, f, n, best),
        Asked::Open(g) => {
            let other = no(f, q);
            if is_before(n, least_sheet(other, n), least_sheet(g, n)) {
                let first = best_from(s, no_part, other, n, best);
                return best_from(s, yes_part, g, n, first);
            }
            let first = best_from(s, yes_part, g, n, best);
            best_from(s, no_part, other, n, first)
        }
    }
}
