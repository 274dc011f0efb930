// What the number of a refusal means.
ghost use Rattle.page.specs.Filled.{Filled};
ghost use Rattle.words.specs.Meanings.{meaning_of};

use super::lists::text_at;
use page::texts::put;

pub fn meaning(page: &mut [u8], at: usize, number: u64) -> usize
    ensures { Filled page.old at (meaning_of number) result page.new }
{
    let meanings = b"the file is longer than 1,048,576 bytes;\
        no CR LF ends this record, and no 900 came before it;\
        a byte outside 0x20 to 0x7E, or a CR or LF that stands alone;\
        the first field is no indicator, or this record may not come here;\
        the wrong number of fields;\
        the field breaks its rule, or begins or ends with a space;\
        quality, reason and description do not go together;\
        the date is not later than that of the day before;\
        the 400 does not go on where the last one ended, or ends too early or too late;\
        the 400s of a V day end before its last interval;\
        all intervals of the V day are alike, so it should not be V;\
        the read time is not within its 300's day, from 00:00:01 to 00:00:00 of the day after;\
        bytes behind the 900 record;\
        no such day or channel;\
        a lent list or the room is too short;\
        the day is not fit to be written;\
        ;\
        the store holds this day with an update time that is equal or later;\
        every slot of the store is used, and the key is new;\
        the live bytes and the new block exceed the store's room;\
        the bytes lent are no store, no map or no index of that file;\
        ;\
        the tenant map is full;\
        the first date falls, or is no date;\
        a share above 1000, a bad key, or a share without a key;\
        the channel is on no output, or the shares of its outputs add up to 0;\
        the total is above 2,880,000,000,000,000";
    put(page, at, text_at(meanings, number as usize))
}
