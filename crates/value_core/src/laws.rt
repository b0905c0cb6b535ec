ghost use Rattle.value_core.specs.Laws.{BinaryGivesValues, PrefixGivesValues};
ghost use Rattle.value_core.specs.Laws.{BinaryIsFilled, PrefixIsFilled};
ghost use Rattle.value_core.specs.Laws.{CodesAreDecoded};
ghost use Rattle.value_core.specs.Codes.{NoCodeIsSpare, NumbersHaveTheirWords, OnlyNumbersHaveNumberWords};

/// What holds of all operators: over values they give values, and none of them gives Empty.
pub fn operator_laws()
    ensures binary_in_range { BinaryGivesValues }
    ensures prefix_in_range { PrefixGivesValues }
    ensures binary_filled { BinaryIsFilled }
    ensures prefix_filled { PrefixIsFilled }
{}

/// What holds of codes: there is a value for every word, so that what a word stands for can be said of any,
/// and for the code of a value it is that value. Exactly the codes of numbers have the kind of one, and each tells its
/// number. No value has one of the two spare words as its code.
pub fn code_laws()
    ensures decoded { CodesAreDecoded }
    ensures spare { NoCodeIsSpare }
    ensures numbers { NumbersHaveTheirWords }
    ensures others { OnlyNumbersHaveNumberWords }
{}
