// The laws of tokens, each the contract of a function that only carries it.
ghost use Rattle.tokens.specs.Laws.{ReadsBack, StoredReadsBack};

// The written form of tokens is that of no other tokens.
pub fn reads_back() -> u8
    ensures { ReadsBack }
{
    0
}

// Tokens in range that were stored are read back as they were, at any depth.
pub fn stored_reads_back() -> u8
    ensures { StoredReadsBack }
{
    0
}
