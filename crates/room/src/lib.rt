// How many bytes of a piece can be taken at once: as many as have room for whatever they put out, and let
// no counter stop. proofs/Window.antt shows what such bytes put out.

#![tactic(auto)]

ghost use Rattle.std.specs.Prelude.{◌≡◌, ◌<◌};
ghost use Rattle.room.specs.Room.{part_of, room_for, Passable};

use output::Room;
use taking::{Flow, Lengths};

// How many bytes can be taken at once, no more than so many: 0 where the place lies outside, where blanks
// are out early, and where the stream was closed. Content over the limit puts nothing out, whatever is taken.
#[tactic(auto, unfolding(crate::specs::Room::part_of))]
pub fn part(p: Flow, most: usize, lengths: Lengths) -> usize
    ensures passable { 0 < result → Passable p result lengths }
    ensures value { result ≡ part_of p most lengths }
{
    let Some(room) = p.room(lengths) else {
        return 0;
    };
    if p.state.early != 0 || p.state.closed != 0 {
        return 0;
    }
    let n = most.min(lengths.piece - p.taken);
    if format::CONTENT_LIMIT < p.state.check.field.content {
        return n;
    }
    n.min(room_for(p, room))
}

// How many bytes have room for whatever they put out: 0 where the state has counted less than this call
// put out, or counts past where counters stop.
#[tactic(auto, unfolding(crate::specs::Room::room_for))]
fn room_for(p: Flow, room: Room) -> usize
    ensures { result ≡ room_for p room }
{
    let check = p.state.check;
    let text = check.counts.text as usize + check.field.content as usize;
    let fields = check.counts.fields.0 as usize;
    if text < p.text || fields < p.ends {
        return 0;
    }
    let held = check.field.held as usize;
    let limit = format::FILE_LIMIT as usize;
    room.text
        .saturating_sub(held)
        .min(limit.saturating_sub(text + held))
        .min(room.ends)
        .min(room.rows)
        .min(limit.saturating_sub(fields))
}
