// The replies as C has them (bindings/c/finialbasil.h): a struct for Check's, and one for all others. A reply holds what the
// specification lists for it.
ghost use Rattle.std.specs.Prelude.{◌≡◌};
ghost use Rattle.model.specs.Replies.{listed_check, listed_query};
ghost use Rattle.finialbasil.specs.Layout.{place_number, check_fields, reply_fields};

use model::{CheckReply, Refusal};
use table::refusals::{number, place};

// What `refusal` holds where nothing is refused.
const ACCEPTED: u32 = 0;

// What `place` holds where a refusal gives none.
const NO_PLACE: u32 = 0xffff_ffff;

// On a refusal the fields after `place` are 0.
#[repr(C)]
#[derive(Drop)]
pub struct FnbCheckReply {
    pub refusal: u32,
    pub place: u32,
    pub records: u32,
    pub top: u32,
    pub columns: u32,
    pub column_count: u32,
}

// What every other call replies; on a refusal `value` is 0.
#[repr(C)]
#[derive(Drop)]
pub struct FnbReply {
    pub refusal: u32,
    pub place: u32,
    pub value: u32,
}

pub fn check_fields(reply: CheckReply) -> FnbCheckReply
    ensures { result ≡ check_fields (listed_check reply) }
{
    match reply {
        Ok(s) => FnbCheckReply {
            refusal: ACCEPTED,
            place: NO_PLACE,
            records: u32::from(s.records),
            top: u32::from(s.top),
            columns: u32::from(s.columns),
            column_count: s.count,
        },
        Err(why) => FnbCheckReply {
            refusal: number(why),
            place: place_number(place(why)),
            records: 0,
            top: 0,
            columns: 0,
            column_count: 0,
        },
    }
}

// The reply of every other call, by its value as a number.
pub fn reply_fields(reply: Result<u32, Refusal>) -> FnbReply
    ensures { result ≡ reply_fields (listed_query reply) }
{
    match reply {
        Ok(value) => FnbReply {
            refusal: ACCEPTED,
            place: NO_PLACE,
            value,
        },
        Err(why) => FnbReply {
            refusal: number(why),
            place: place_number(place(why)),
            value: 0,
        },
    }
}

// The record that a refusal names, as a number.
fn place_number(place: Option<u8>) -> u32
    ensures { result ≡ place_number place }
{
    place.map_or(NO_PLACE, u32::from)
}
