//! Laws of printed networks.

ghost use Rattle.network_text.specs.Laws.{GivenNetworksAreReadAgain, GivenNetworksAreTheOneOutcome, TextsGiveNoOther, TextsGiveTheirNetworks};

/// A network that has the shape of one for a completed case, and keeps the two counts, is what the
/// grammar gives for its text: the one outcome of the text, but for want of memory.
pub fn networks_are_what_their_texts_give()
    ensures given { TextsGiveTheirNetworks }
    ensures once { TextsGiveNoOther }
{}

/// What is printed of a network that the grammar gives for a completed case is read again: its text
/// has that network as its one outcome, but for want of memory.
pub fn networks_are_printed_and_read_again()
    ensures again { GivenNetworksAreReadAgain }
    ensures once { GivenNetworksAreTheOneOutcome }
{}
