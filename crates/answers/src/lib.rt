// The answer record that C reads, on paper (`specs/`): nine words for every answer of the C interface. Nothing here runs: the functions are those of `answer_record`.
#![tactic(auto)]
