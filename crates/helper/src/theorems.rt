// Each function is there for its contract, which is a theorem of specs/Runs.
ghost use Rattle.helper.specs.Runs.{RoomLinear};

// There is no room only below 65,536 words and 512 for each byte of texts and names, and for 16 more a file.
pub fn room_linear() -> u8
    ensures { RoomLinear }
{
    0
}
