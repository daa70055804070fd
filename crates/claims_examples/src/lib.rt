// Document 01's checked examples and its listing. Each claim is the contract of a function with nothing to do.
#![tactic(auto)]

ghost use Rattle.claims_examples.specs.Starred.{StarredExamples};
ghost use Rattle.claims_examples.specs.Listing.{ListingPrinted};

// Document 01's checked examples with a star, as one statement about the definitions and the calls whose contracts cite them.
pub fn starred_examples()
    ensures { StarredExamples }
{}

// `codelist` writes document 01's listing for document 01's input line.
pub fn listing_printed()
    ensures { ListingPrinted }
{}
