// Any system of amounts, told by a type: what is proved over this trait holds in all of them.
ghost use Rattle.amounts.specs.Amounts.{Operations, Lawful, amounts_of};

pub trait AmountSystem: Sized {
    ghost operations: { Operations Self };

    ghost lawful: { Lawful (amounts_of Self operations) };
}
