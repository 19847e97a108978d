//! What holds of writing words: the contract of each function is the law, and it does nothing.
#![tactic(auto)]

ghost use Rattle.encoder.specs.Theorems.{WrittenRead, WrittenBelow, PartsApart, FitsOne, RangesAre, NarrowBits, EncodeDecode, DecodeEncode, OneWord, SecondWriting, ChoiceShown, ChosenFormIs, AskedInOrder};

/// What fits its bits, and that parts which share no bit are read back.
#[tactic(auto, using(crate::proofs::Parts::written_read, crate::proofs::Parts::written_below, crate::proofs::Values::fits_one, crate::proofs::Fits::narrow_bits))]
pub fn parts_rules()
    ensures read { WrittenRead }
    ensures below { WrittenBelow }
    ensures apart { PartsApart }
    ensures one { FitsOne }
    ensures ranges { RangesAre }
    ensures narrow { NarrowBits }
{}

/// What is written is read as what it was made from, and what is read is written with its ignored bits 0.
#[tactic(auto, using(crate::proofs::ReadBack::decode_encode, crate::proofs::ReadBack::one_word))]
pub fn both_ways()
    ensures read { EncodeDecode }
    ensures written { DecodeEncode }
    ensures one { OneWord }
    ensures again { SecondWriting }
    ensures shown { ChoiceShown }
{}

/// Which choices are refused, and in which order the questions are asked.
#[tactic(auto, using(crate::proofs::ReadBack::chosen_form_is, crate::proofs::ReadBack::asked_in_order))]
pub fn refusal_rules()
    ensures form { ChosenFormIs }
    ensures order { AskedInOrder }
{}
