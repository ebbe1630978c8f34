//! What is found of agents that run modules is true of the strategies of their modules. The functions do nothing.

ghost use Rattle.bhs_wasm_team.specs.Laws.{FindingsOfModulesAgree, ModulesAnswer, ModulesSolve};

/// Some machines answer as agents that run modules have answered, and each agent has the strategy of its role's module.
pub fn modules_answer()
    ensures { ModulesAnswer }
{}

/// If it was found that every schedule solves, then every schedule solves where each agent has the strategy of the
/// module of its own role.
pub fn modules_solve()
    ensures { ModulesSolve }
{}

/// Two findings of one match of agents that run the same modules do not contradict each other.
pub fn findings_of_modules_agree()
    ensures { FindingsOfModulesAgree }
{}
