// A record's fields and a table's records, one after the other.

ghost use Rattle.std.proofs.Props.{props};
ghost use Rattle.tables.specs.Formed.{Cuts, Divides, Rest, Small, Ordered-prop};

use crate::start_of;

// Fields that are still to come: where the first begins in text, and where each ends.
#[derive(Clone, Copy)]
pub struct Fields<'t, 'n> {
    pub(crate) text: &'t [u8],
    pub(crate) from: usize,
    pub(crate) ends: &'n [u32],
    ghost cuts: { Cuts from text.now ends.now } by { Prim.hlevel (props, Ordered-prop) },
}

impl<'t, 'n> Iterator for Fields<'t, 'n> {
    type Item = &'t [u8];

    ghost use Rattle.std.specs.Prelude.{length};
    ghost use Rattle.std.specs.Iterator.{YieldsFirstRef, at_most};
    ghost use Rattle.tables.specs.Fields.{contents};

    ghost next_gives = { YieldsFirstRef contents };

    ghost remaining = { λ s. at_most (length s.ends.now) };

    #[tactic(auto, unfolding(format::specs::Memory::parts))]
    fn next(&mut self) -> Option<&'t [u8]> {
        let (end, ends) = self.ends.split_first()?;
        let field = &self.text[self.from..*end as usize];
        self.from = *end as usize;
        self.ends = ends;
        Some(field)
    }
}

// Records that are still to come, the last ones of a well formed table: the number of the first one's first
// field, where it begins in text, and for each record the number of fields so far.
#[derive(Drop)]
pub struct Records<'t, 'n> {
    pub(crate) text: &'t [u8],
    pub(crate) ends: &'n [u32],
    pub(crate) first: usize,
    pub(crate) start: usize,
    pub(crate) rows: &'n [u32],
    ghost divides: { Divides text.now ends.now first start rows.now } by { Prim.hlevel (props, Ordered-prop) },
    ghost rest: { Rest text.now ends.now first rows.now } by { Prim.hlevel (props, Ordered-prop) },
    ghost small: { Small text.now ends.now rows.now },
}

impl<'t, 'n> Iterator for Records<'t, 'n> {
    type Item = Fields<'t, 'n>;

    ghost use Rattle.std.specs.Prelude.{length};
    ghost use Rattle.std.specs.Iterator.{YieldsFirstBy, at_most};
    ghost use Rattle.tables.specs.Fields.{contents};
    ghost use Rattle.tables.specs.Records.{records};

    ghost next_gives = { YieldsFirstBy contents records };

    ghost remaining = { λ s. at_most (length s.rows.now) };

    #[tactic(auto, unfolding(format::specs::Memory::parts))]
    fn next(&mut self) -> Option<Fields<'t, 'n>> {
        let (next, rows) = self.rows.split_first()?;
        let next = *next as usize;
        let fields = Fields {
            text: self.text,
            from: self.start,
            ends: &self.ends[self.first..next],
        };
        self.first = next;
        self.start = start_of(self.ends, next) as usize;
        self.rows = rows;
        Some(fields)
    }
}
