// A list of steps that grows and shrinks at its end. Fixed memory: a plan has at most 288 places.
use arrayvec::ArrayVec;

pub type Places = ArrayVec<u8, 288>;
