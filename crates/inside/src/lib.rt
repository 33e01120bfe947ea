// What stands between quotes, written at once: content in every dialect whose delimiter is no quote.

#![tactic(auto)]

ghost use Rattle.std.specs.Prelude.{◌≡◌, Bool, ℕ, ◌<◌, List, IfSome, IfNone};
ghost use Rattle.format.specs.Dialect.{Dialect};
ghost use Rattle.fill.specs.Walk.{Wrote, NoQuote, Inside};

use fill::Head;

// A place of the file, and one of the text.
#[derive(Clone, Copy)]
struct Spot {
    at: usize,
    text: usize,
}

// Writes what stands between quotes, up to a byte that is not content in every dialect or for which
// there is no room: runs of bytes and LFs as they are, and one quote for each pair.
pub fn pass_inside(file: &[u8], p: Head, text: &mut [u8]) -> Head
    ensures { (w : Bool) (d : Dialect) → NoQuote d → (ends rows : List ℕ) → Wrote w d file.now p (record { text = text.old; ends = ends; rows = rows }) result (record { text = text.new; ends = ends; rows = rows }) }
{
    if p.form != steps::QUOTED || p.held != 0 || file.len() <= p.at {
        return p;
    }
    let mut here = Spot {
        at: p.at,
        text: p.text,
    };
    while let Some(next) = inside_more(file, here, text) {
        here = next;
    }
    Head {
        at: here.at,
        text: here.text,
        begun: true,
        ..p
    }
}

// Writes what stands at a place between quotes: pairs of quotes, an LF or a run of bytes; or nothing,
// where it is none of these or has no room.
#[tactic(auto, using(crate::proofs::Quoted::written))]
fn inside_more(file: &[u8], from: Spot, text: &mut [u8]) -> Option<Spot>
    ensures on { IfSome result (λ to. from.at < to.at) }
    ensures written { IfSome result (λ to. Inside file.now from.at from.text text.old to.at to.text text.new) }
    ensures unchanged { IfNone result (text.new ≡ text.old) }
{
    match *file.get(from.at)? {
        b'"' => {
            let pairs = runs::pair_run(file, from.at);
            if pairs == 0 {
                return None;
            }
            let text = fill::put_run(text, from.text, pairs, b'"')?;
            Some(Spot {
                at: from.at + 2 * pairs,
                text,
            })
        }
        b'\n' => {
            let text = fill::put_run(text, from.text, 1, b'\n')?;
            Some(Spot {
                at: from.at + 1,
                text,
            })
        }
        _ => {
            let run = runs::inner_run(file, from.at);
            if run == 0 {
                return None;
            }
            let to = from.at + run;
            let text = fill::copied(text, from.text, &file[from.at..to])?;
            Some(Spot { at: to, text })
        }
    }
}
