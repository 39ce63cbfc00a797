// The line form of a list, and the reader of it: definitions and what is proved of them stand in specs/. The reader answers as Translate
// does (document 02, Req 05): its answer is translation_definitions' Translated. Nothing here has a body.
#![tactic(auto)]
