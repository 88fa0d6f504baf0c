// The values that the definitions of this crate speak of.
#![tactic(auto)]

ghost use Rattle.std.specs.Prelude.{◌≡◌};
ghost use Rattle.format.specs.Check.{Failed, check_of};
ghost use Rattle.format.specs.Answer.{Refused, answer_of};

// What the caller asks of a reading: the edition whose tables are used. A further setting becomes a field here.
#[derive(Clone, Copy, Debug, PartialEq, Eq)]
pub struct Settings {
    pub edition: u32,
}

// A reading, document 01's term: what is asked for, and the version of the packet that is read, from its P1.
#[derive(Clone, Copy, Debug, PartialEq, Eq)]
pub struct Reading {
    pub settings: Settings,
    pub version: u8,
}

// What a target's position takes from its dwell: the scale factors D10 and D11 of its deltas, and the center of the dwell area, D24 and D25,
// that they are added to.
#[derive(Clone, Copy, Debug, PartialEq, Eq)]
pub struct Area {
    pub d10: position::Sa32,
    pub d11: position::Ba32,
    pub d24: position::Sa32,
    pub d25: position::Ba32,
}

// What is at fault in the call and the header, or in one segment: the first row of the table of refusals that applies.
#[derive(Clone, Copy, Debug, PartialEq, Eq)]
pub struct Fault {
    // Kept: a number and no enum, since `first_row` and `gmti_read` promise the row's own number.
    pub number: usize,
    // Kept: 0 for none and no Option, since `first_row` and `gmti_read` promise that very 0 where a row names no field.
    pub field: usize,
}

impl Fault {
    // A row that names no field.
    pub fn row(number: usize) -> Fault
        ensures { check_of (Err result) ≡ Failed number 0 }
    {
        Fault { number, field: 0 }
    }

    pub fn naming(number: usize, field: usize) -> Fault
        ensures { check_of (Err result) ≡ Failed number field }
    {
        Fault { number, field }
    }

    // The refusal of a packet whose segment of this number has the fault; 0 for the call and the header.
    pub fn in_segment(self, segment: usize) -> Refusal
        ensures { answer_of (Err result) ≡ Refused self.number segment self.field }
    {
        Refusal {
            number: self.number,
            segment,
            field: self.field,
        }
    }
}

// What a reading or the writer answers, where no row applies.
#[derive(Clone, Copy, Debug, PartialEq, Eq)]
pub struct Counts {
    pub segments: usize,
    pub dwells: usize,
    pub targets: usize,
    // The length of the sheet or of the packet.
    pub length: usize,
}

// And where one does. specs/Answer.antt states the seven numbers of either.
#[derive(Clone, Copy, Debug, PartialEq, Eq)]
pub struct Refusal {
    pub number: usize,
    // From 1; 0 for the call, the header and the lent memory.
    pub segment: usize,
    pub field: usize,
}

impl Refusal {
    // By a row that names no segment and no field.
    pub fn row(number: usize) -> Refusal
        ensures { answer_of (Err result) ≡ Refused number 0 0 }
    {
        Refusal {
            number,
            segment: 0,
            field: 0,
        }
    }
}

// The first thing in a packet that is new in Edition 3.
#[derive(Clone, Copy, Debug, PartialEq, Eq)]
pub struct NewThing {
    // The number of the segment that holds it.
    pub segment: usize,
    // The field that document 01 names for it.
    pub field: usize,
}

// The longest packet that row 2 lets pass.
pub const LONGEST_PACKET: usize = 65536;

// No sheet is longer than the bound of the longest packet. Nothing grows more than a target of 4 bytes, which becomes a whole record.
pub const LONGEST_SHEET: usize = HeaderRecord::WHOLE
    + TargetRecord::WHOLE * (LONGEST_PACKET - HeaderRecord::LEN) / 4;

// The records of a sheet: the kind of each, the length that the kind fixes for its body, and that of the whole record. Places are counted from
// the body's first byte.
// Kept: the three constants in each. A trait that provides `WHOLE` was tried: what a trait provides can stand neither in an array's length nor
// in another constant, as `LONGEST_SHEET` does. And numbers for kinds, as for types of segments: any byte may be handed in, and the
// definitions (`body_length`, `is_known`) compare the page's own numbers.
#[derive(Clone, Copy)]
pub struct HeaderRecord {}

impl HeaderRecord {
    pub const KIND: u8 = 1;

    pub const LEN: usize = 32;

    pub const WHOLE: usize = 1 + HeaderRecord::LEN;
}

#[derive(Clone, Copy)]
pub struct MissionRecord {}

impl MissionRecord {
    pub const KIND: u8 = 2;

    pub const LEN: usize = 39;

    pub const WHOLE: usize = 1 + MissionRecord::LEN;
}

#[derive(Clone, Copy)]
pub struct DwellRecord {}

impl DwellRecord {
    pub const KIND: u8 = 3;

    pub const LEN: usize = 87;

    pub const WHOLE: usize = 1 + DwellRecord::LEN;

    pub const D5: usize = 13;

    pub const D27: usize = 77;

    // The mark of D27.
    pub const MARK: usize = DwellRecord::LEN - 1;
}

#[derive(Clone, Copy)]
pub struct TargetRecord {}

impl TargetRecord {
    pub const KIND: u8 = 4;

    pub const LEN: usize = 44;

    pub const WHOLE: usize = 1 + TargetRecord::LEN;

    pub const LATITUDE: usize = 36;

    pub const LONGITUDE: usize = 40;
}

#[derive(Clone, Copy)]
pub struct TextRecord {}

impl TextRecord {
    pub const KIND: u8 = 5;

    pub const LEN: usize = 24;

    pub const WHOLE: usize = 1 + TextRecord::LEN;

    // The length of F3, behind F1 and F2.
    pub const F3_LENGTH: usize = 20;

    // Where F3 begins in the segment's body, behind F1 and F2.
    pub const F3: usize = TextRecord::F3_LENGTH;
}

#[derive(Clone, Copy)]
pub struct PieceRecord {}

impl PieceRecord {
    pub const KIND: u8 = 6;

    pub const LEN: usize = 33;

    pub const WHOLE: usize = 1 + PieceRecord::LEN;

    // The bytes stand behind the count.
    pub const BYTES: usize = 1;

    // A full piece has so many.
    pub const FULL: usize = PieceRecord::LEN - 1;
}

#[derive(Clone, Copy)]
pub struct OpaqueRecord {}

impl OpaqueRecord {
    pub const KIND: u8 = 7;

    pub const LEN: usize = 5;

    pub const WHOLE: usize = 1 + OpaqueRecord::LEN;

    // The length of the segment's body, behind its type.
    pub const BODY_LENGTH: usize = 1;
}

#[derive(Clone, Copy)]
pub struct JobRecord {}

impl JobRecord {
    pub const KIND: u8 = 8;

    pub const LEN: usize = 69;

    pub const WHOLE: usize = 1 + JobRecord::LEN;

    pub const J14: usize = 45;

    pub const J26: usize = 65;

    // The mark of J26.
    pub const MARK: usize = JobRecord::LEN - 1;
}

#[derive(Clone, Copy)]
pub struct TestRecord {}

impl TestRecord {
    pub const KIND: u8 = 9;

    pub const LEN: usize = 14;

    pub const WHOLE: usize = 1 + TestRecord::LEN;
}

#[derive(Clone, Copy)]
pub struct LocationRecord {}

impl LocationRecord {
    pub const KIND: u8 = 10;

    pub const LEN: usize = 23;

    pub const WHOLE: usize = 1 + LocationRecord::LEN;
}

#[derive(Clone, Copy)]
pub struct HrrRecord {}

impl HrrRecord {
    pub const KIND: u8 = 11;

    pub const LEN: usize = 66;

    pub const WHOLE: usize = 1 + HrrRecord::LEN;

    // H2 to H31 stand behind the mask.
    pub const FIELDS: usize = 5;
}

#[derive(Clone, Copy)]
pub struct ScattererRecord {}

impl ScattererRecord {
    pub const KIND: u8 = 12;

    pub const LEN: usize = 8;

    pub const WHOLE: usize = 1 + ScattererRecord::LEN;
}
