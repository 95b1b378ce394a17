#![tactic(auto)]

// The six channels by their operation elements, as Nielsen and Chuang have them, beside the definition of terms: statements and proofs alone.
