// Facts about the value kinds that are worth a name, each in the contract of a function, so that the check asks for its proof.
ghost use Rattle.values.specs.Worked.{NumberBeforeAuthor, SignedNotByBytes};

// Marks go by number first; levels go by signed size.
pub fn worked_orders_stand()
    ensures marks { NumberBeforeAuthor }
    ensures levels { SignedNotByBytes }
{}
