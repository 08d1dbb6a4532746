// What holds of printed terms.
ghost use Rattle.chyp_print.specs.Environments.{NamesMeanGenerators};
ghost use Rattle.chyp_print.specs.Reading.{PrintedReadsBack};

/// Over all terms whose places are below 2^64, however generators are named: the text of a term is read
/// back as the term with its chains halved anew, and as the term itself where it was read back from a
/// graph. In a sound and closed environment in which each generator of the term has an entry, its first
/// name means it, so that this holds of the text of the term in that environment.
pub fn printed_terms_are_read_back()
    ensures back { PrintedReadsBack }
    ensures names { NamesMeanGenerators }
{}
