// A table from which a sheet's values can be read, for a set of its entries (specs/Settled.antt), and that the values of levels then meet the sheet.
// It rests on levels' theorem and on the meaning. Tables are settled by the verdict, and values read off them by values.
#![tactic(auto)]
