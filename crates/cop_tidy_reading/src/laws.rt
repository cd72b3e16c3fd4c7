//! What is read of a text, and what a text says.

ghost use Rattle.std.specs.Prelude.{◌≡◌, ℕ, List, Ok, All};
ghost use Rattle.cop_tidy_device.specs.Device.{Meaning};
ghost use Rattle.cop_tidy_reading.specs.declared.words.Words.{Words};
ghost use Rattle.cop_tidy_reading.specs.Described.{IsDescribedBy};
ghost use Rattle.cop_tidy_reading.specs.Reading.{loosely};

/// Nothing is read that a text does not describe: each object of the device has a section of its own, or stands in that of its index, as the one
/// value or in the compact form; or it is exactly what CompactPDO says of a PDO that no list names.
pub fn each_object_is_described()
    ensures { (source : List ℕ) (words : Words) (device : Meaning) → loosely source words ≡ Ok device → All (IsDescribedBy source words) device.objects }
{}
