// Words that lie in bytes and fields that lie in words: the definitions that byte layouts are stated with, and their laws.
// There is no code here.
#![tactic(auto)]

ghost use Rattle.packed.specs.Laws.{WordBack, BytesBack, FieldsBack, FieldsMake};

// Words written as bytes are read again and the other way round, and so for fields in a word.
pub fn packing_laws()
    ensures word { WordBack }
    ensures bytes { BytesBack }
    ensures found { FieldsBack }
    ensures made { FieldsMake }
{}
