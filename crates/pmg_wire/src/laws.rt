ghost use Rattle.pmg_wire.specs.Grammar.{IsOneSpelling, IsFound, IsOnly};

/// States the laws of values: a value that is read is encoded so, an encoded value is read, and no value's encoding is a prefix of
/// another's. Each value therefore has one encoding.
pub fn value_rules()
    ensures found { IsFound }
    ensures only { IsOnly }
    ensures one_spelling { IsOneSpelling }
{}
