// Laws of the bay book's protocol: each function does nothing, and its contract is a law of the definitions of the five calls.
#![tactic(auto)]

ghost use Rattle.laws.specs.Rows.{RowsByAccesses, RowsKeepLength};
ghost use Rattle.laws.specs.Writes.{StepWritesOne};
ghost use Rattle.laws.specs.Cuts.{CutInStores, FrontsOfMake, CutInCall};
ghost use Rattle.laws.specs.Places.{PlacesAreWords};
ghost use Rattle.laws.specs.Targets.{StepsWriteTargets};
ghost use Rattle.laws.specs.Kept.{StepsKeepTheRest};
ghost use Rattle.laws.specs.Chain.{SplitsSetTheChain};
ghost use Rattle.laws.specs.Ranges.{StepsInRange};
ghost use Rattle.laws.specs.KeptRanges.{CallsKeepRange};
ghost use Rattle.laws.specs.Records.{CallsKeepRecords};
ghost use Rattle.laws.specs.Drawn.{CallsKeepNumbers};
ghost use Rattle.laws.specs.Arrays.{CallsKeepArrays};
ghost use Rattle.laws.specs.Lists.{CallsKeepLists};
ghost use Rattle.laws.specs.Stages.{CallsKeepStages};

// The row after a call is what the call's accesses make of it.
pub fn rows_are_made_by_accesses()
    ensures { RowsByAccesses }
{}

// The row after any call has as many words as before.
pub fn rows_keep_their_length()
    ensures { RowsKeepLength }
{}

// A step writes at most one word.
pub fn step_writes_one_word()
    ensures { StepWritesOne }
{}

// A cut inside some stores leaves the row after a front of them.
pub fn cut_in_stores_leaves_a_front()
    ensures { CutInStores }
{}

// After some but not all of make's stores the head is 0, and no rebuild takes the row.
pub fn unfinished_make_has_no_head()
    ensures { FrontsOfMake }
{}

// What a cut inside each of the five calls leaves.
pub fn cut_in_call()
    ensures { CutInCall }
{}

// The head and the words of the pages' slots, next and low are all the words of a row, each under one name.
pub fn places_are_the_words()
    ensures { PlacesAreWords }
{}

// Which word a step writes, by the runner's stage and by how its held page stands.
pub fn steps_write_their_targets()
    ensures { StepsWriteTargets }
{}

// A step leaves every word but its own.
pub fn steps_keep_the_rest()
    ensures { StepsKeepTheRest }
{}

// Head, next and low words are written by split steps alone; every other step writes key words and value words of slots.
pub fn splits_set_the_chain()
    ensures { SplitsSetTheChain }
{}

// With page and slot numbers in range a step writes a place of the book, and only split steps move its chain.
pub fn steps_stay_in_range()
    ensures { StepsInRange }
{}

// The table of a closed book is in range, and every call keeps it so: page numbers, slot numbers, and the progress of a split.
pub fn calls_keep_the_range()
    ensures { CallsKeepRange }
{}

// No page record has a committed slot at or above its taken count: so it is in a closed book, and every call keeps it so.
pub fn calls_keep_records_sound()
    ensures { CallsKeepRecords }
{}

// The words that runners carry have change numbers of their own, no two alike, from 1 to the last one drawn: so it is in a closed book, and every call keeps it so.
pub fn calls_keep_numbers_apart()
    ensures { CallsKeepNumbers }
{}

// The table's arrays are whole, so that a record that is written is read back: so it is in a closed book, and every call keeps it so.
pub fn calls_keep_arrays_whole()
    ensures { CallsKeepArrays }
{}

// The pages of an open book are one list in which none comes twice. The old page of a split is in it; the new ones are not, are not one and the same, and are held by nobody.
pub fn calls_keep_the_list()
    ensures { CallsKeepLists }
{}

// A runner is pending only on a page in sync or before the link, so nobody is when the new pages are linked; and it compares and reads only there or where the page has left the list.
pub fn calls_keep_stage_and_phase()
    ensures { CallsKeepStages }
{}
