//! Laws of the layout. Each function does nothing: its contract is the law.
ghost use Rattle.sdh_frame.specs.PlaceLaws.{PayloadPlaces, PayloadIndexes, PointerPlaces, PointerIndexes};
ghost use Rattle.sdh_frame.specs.AuLaws.{WritingKeeps, WritingOneList, WritingAllKeeps, WritingAllCovers};

/// Each payload index of an AU-4 has a place whose field is that AU-4's payload, and each such place has one index.
pub fn payload_places_have_one_index()
    ensures places { PayloadPlaces }
    ensures indexes { PayloadIndexes }
{}

/// Each pointer byte of an AU-4 has a place whose field is that byte, and each such place has one index.
pub fn pointer_places_have_one_index()
    ensures places { PointerPlaces }
    ensures indexes { PointerIndexes }
{}

/// A written AU-4 reads back, and every other AU-4 and all overhead stay.
pub fn writing_an_au_keeps_the_rest()
    ensures { WritingKeeps }
{}

/// Writing only the payload of an AU-4 is the same as writing the AU-4 with its pointer bytes unchanged. Writing only
/// its pointer bytes is the same as writing it with its payload unchanged.
pub fn writing_one_list_writes_the_au()
    ensures { WritingOneList }
{}

/// Once all AU-4s are written, each reads back, overhead stays, and nothing of their former contents is left.
pub fn writing_all_aus_keeps_overhead()
    ensures keeps { WritingAllKeeps }
    ensures covers { WritingAllCovers }
{}
