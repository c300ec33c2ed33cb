// Reading and writing as each other's inverse: the text of numbers reads back as those numbers, what is accepted is the text of what was
// read, and a text in pieces is read as it would be whole. It has no code: its theorems are about what the promises of `text_records` cite.
#![tactic(auto)]
