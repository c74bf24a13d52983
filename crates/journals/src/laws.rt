// Facts about journals that are worth a name, each in the contract of a function, so that the check asks for its proof.
ghost use Rattle.journals.specs.Runs.{FreeRowsFall, NothingLost, ReadBack, SizeStays};

// What a run of appends keeps and adds.
pub fn rows_kept_stands()
    ensures rows { NothingLost }
    ensures free { FreeRowsFall }
    ensures size { SizeStays }
    ensures back { ReadBack }
{}
