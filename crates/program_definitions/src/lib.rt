// What the programs ladder-list and ladder-scan print. The definitions stand in specs/; nothing here has a body.
#![tactic(auto)]
