// The months of a sui from leap table, Sun and Moon, on paper (`specs/`): definitions, examples and theorems (document 01, "Months of a sui"). Nothing here runs: the
// functions are those of `one_sui`, and for many suis in turn of `suis`.
#![tactic(auto)]
