//! A team whose agents run modules: one for all, or one for each agent.

ghost use Rattle.std.specs.Prelude.{◌≡◌, [], IfOk, IsSomeAnd};

use crate::commands::{is_depart, is_gone, number_of, said_by, see};
use crate::failures::{FailureCause, ModuleFailure, function_at};
use crate::memory_table::{MemoryTable, Saved, Status};
use bhs_schedules::{Latest, Step, Team, TeamAnswer, TeamFault};
use bhs_wasm::{HostFunction, Interpreter, Module, Progress};
use std::alloc::{AllocError, Global};

/// How many instructions an agent executes at most from one command to the next, wherever it plays or is explored; with
/// more it fails.
pub const FUEL: u32 = 10_000_000;

/// What an agent runs: a module, with these arguments.
#[derive(Drop)]
pub struct Role {
    pub program: Module,
    pub arguments: Vec<u32>,
}

/// The roles of a team, counted from 0. Each agent has the role with its own number, or role 0 if there is none; so a
/// single role serves all agents.
#[derive(Drop)]
pub struct Roles {
    pub first: Role,
    pub others: Vec<Role>,
}

impl Roles {
    ghost use Rattle.bhs_wasm_team.specs.Roles as specs;

    /// One role for all agents.
    pub fn one(alloc: Global, first: Role) -> Roles
        ensures { (result.first ≡ first) × (result.others.items ≡ []) }
    {
        Roles {
            first,
            others: Vec::new(alloc),
        }
    }

    // The number of an agent's role.
    fn number(&self, agent: u16) -> u32
        ensures { result ≡ specs.role_number self.now agent }
    {
        if usize::from(agent) <= self.others.len() {
            u32::from(agent)
        } else {
            0
        }
    }

    // The role of this number.
    fn at(&self, number: u32) -> &Role
        ensures { result.now ≡ specs.role_at self.now number }
    {
        if number == 0 {
            return &self.first;
        }
        match self.others.get(number as usize - 1) {
            Some(role) => role,
            None => &self.first,
        }
    }
}

/// Agents in these roles. From one command to the next each executes at most `fuel` instructions.
#[derive(Drop)]
pub struct Agents {
    pub alloc: Global,
    pub roles: Roles,
    pub fuel: u32,
    pub interpreter: Interpreter,
    pub table: MemoryTable,
    /// How the first agent of each role failed that did. Contracts say nothing of it.
    pub failures: Vec<ModuleFailure>,
}

impl Agents {
    ghost use Rattle.bhs_schedules.specs.Dialogues.{item_with};
    ghost use Rattle.bhs_wasm.specs.States as states;
    ghost use Rattle.bhs_wasm.specs.States.{state_of};
    ghost use Rattle.bhs_wasm_team.specs.Agents as specs;
    ghost use Rattle.bhs_wasm_team.specs.Answering.{Tells};
    ghost use Rattle.bhs_wasm_team.specs.Roles.{after_in, program_at, start_in};
    ghost use Rattle.bhs_wasm_team.specs.Tables.{saved_at};

    /// A team that has answered nothing.
    pub fn new(alloc: Global, roles: Roles, fuel: u32) -> Result<Agents, AllocError>
        ensures { IfOk result (λ agents. (agents.roles ≡ roles) × (agents.fuel ≡ fuel)) }
    {
        Ok(Agents {
            alloc,
            roles,
            fuel,
            interpreter: Interpreter::new(alloc),
            table: MemoryTable::new(alloc)?,
            failures: Vec::new(alloc),
        })
    }

    /// How the first agent of this role failed that did.
    pub fn failure_in(&self, role: u32) -> Option<ModuleFailure> {
        for failure in &self.failures {
            if failure.role == role {
                return Some(*failure);
            }
        }
        None
    }

    // Answers for an agent that does nothing more.
    fn halted(&mut self, role: u32, status: Status, step: Step) -> Result<TeamAnswer, AllocError>
        ensures { step ≡ specs.does (specs.halted status) → IfOk result (λ answer. Tells self.old self.new
            (record { role = role; memory = specs.halted status }) answer.memory answer.step) }
    {
        let memory = self.table.number(Saved::halted(self.alloc, role, status))?;
        Ok(TeamAnswer { memory, step })
    }

    // Answers for an agent that fails, and notes how the first one of its role did.
    fn fail(&mut self, role: u32, cause: FailureCause) -> Result<TeamAnswer, AllocError>
        ensures { IfOk result (λ answer. Tells self.old self.new
            (record { role = role; memory = specs.halted Status.Failed }) answer.memory answer.step) }
    {
        if self.failure_in(role).is_none() {
            let program = &self.roles.at(role).program;
            let function = function_at(program, self.interpreter.program_counter);
            self.failures.push(ModuleFailure {
                role,
                cause,
                function,
            })?;
        }
        self.halted(role, Status::Failed, Step::Fails)
    }

    // Answers for an agent that has called a command.
    fn waits(&mut self, role: u32, function: HostFunction) -> Result<TeamAnswer, AllocError>
        ensures { IfOk result (λ answer. Tells self.old self.new
            (record { role = role; memory = specs.settled (states.Waits function (state_of self.old.interpreter)) })
            answer.memory answer.step) }
    {
        self.interpreter.forget();
        match said_by(self.alloc, &self.interpreter, function)? {
            Some(step) => {
                let status = Status::Waits(function);
                let saved = Saved::of(self.alloc, role, &self.interpreter, status)?;
                let memory = self.table.number(saved)?;
                Ok(TeamAnswer { memory, step })
            }
            None => self.fail(role, FailureCause::Command),
        }
    }

    // Runs to the next command, and answers.
    fn finish(&mut self, role: u32) -> Result<TeamAnswer, AllocError>
        ensures { IfOk result (λ answer. Tells self.old self.new
            (record {
              role = role;
              memory = specs.settled (states.run (program_at self.old.roles role)
                  self.old.fuel (state_of self.old.interpreter));
            }) answer.memory answer.step) }
    {
        let program = &self.roles.at(role).program;
        match self.interpreter.run(program, self.fuel)? {
            Progress::Waits(function) => self.waits(role, function),
            Progress::Ends => self.halted(role, Status::Ended, Step::Stops),
            Progress::Continues | Progress::Traps => {
                let cause = if self.interpreter.is_out_of_fuel {
                    FailureCause::Fuel
                } else {
                    FailureCause::Trap
                };
                self.fail(role, cause)
            }
        }
    }

    // Answers for an agent at its start.
    fn started(&mut self, role: u32) -> Result<TeamAnswer, AllocError>
        ensures { IfOk result (λ answer. Tells self.old self.new
            (start_in self.old.roles self.old.fuel role) answer.memory answer.step) }
    {
        let Role { program, arguments } = self.roles.at(role);
        match self.interpreter.instantiate(program, arguments)? {
            Progress::Continues => self.finish(role),
            _ => self.fail(role, FailureCause::Trap),
        }
    }

    // Returns from a command with this many parameters, runs to the next one, and answers.
    fn goes_on(
        &mut self,
        role: u32,
        parameters: u32,
        latest: Latest,
        shown: &str,
    ) -> Result<TeamAnswer, AllocError>
        ensures { IfOk result (λ answer. Tells self.old self.new
            (record {
              role = role;
              memory = specs.goes_on (program_at self.old.roles role) self.old.fuel parameters
                  (item_with latest shown.now) (state_of self.old.interpreter);
            }) answer.memory answer.step) }
    {
        see(&mut self.interpreter, latest, shown)?;
        match self.interpreter.answer(parameters, number_of(latest))? {
            Progress::Continues => self.finish(role),
            _ => self.fail(role, FailureCause::Trap),
        }
    }

    // Answers a question about an agent whose memory was restored, after an observation.
    fn resume(
        &mut self,
        role: u32,
        status: Status,
        latest: Latest,
        shown: &str,
    ) -> Result<TeamAnswer, AllocError>
        ensures { IfOk result (λ answer. Tells self.old self.new
            (record {
              role = role;
              memory = specs.after_at (program_at self.old.roles role) self.old.fuel status
                  (state_of self.old.interpreter) (item_with latest shown.now);
            }) answer.memory answer.step) }
    {
        match status {
            Status::Ended => self.halted(role, Status::Ended, Step::Stops),
            Status::Failed => self.halted(role, Status::Failed, Step::Fails),
            Status::Travels => self.goes_on(role, 1, latest, shown),
            Status::Waits(function) => {
                if is_depart(function) && is_gone(latest) {
                    self.travels(role)
                } else {
                    self.goes_on(role, function.parameters(), latest, shown)
                }
            }
        }
    }

    // Answers a question about an agent with this memory, after an observation.
    fn asked(&mut self, before: u32, latest: Latest, shown: &str) -> Result<TeamAnswer, AllocError>
        ensures { IfOk result (λ answer. IsSomeAnd (saved_at self.old.table.states.items before) (λ role_memory.
            Tells self.old self.new
            (after_in self.old.roles self.old.fuel role_memory (item_with latest shown.now))
            answer.memory answer.step)) }
    {
        match self.table.states.get(before as usize) {
            Some(saved) => {
                let (role, status) = (saved.role, saved.status);
                saved.restore(&mut self.interpreter)?;
                self.resume(role, status, latest, shown)
            }
            None => Err(AllocError),
        }
    }

    // Answers for an agent that has departed.
    fn travels(&mut self, role: u32) -> Result<TeamAnswer, AllocError>
        ensures { IfOk result (λ answer. Tells self.old self.new (record {
          role = role;
          memory = record
              { status = Status.Travels; state = states.forgotten (state_of self.old.interpreter) };
        })
            answer.memory answer.step) }
    {
        let saved = Saved::of(self.alloc, role, &self.interpreter, Status::Travels)?;
        let memory = self.table.number(saved)?;
        Ok(TeamAnswer {
            memory,
            step: Step::Stops,
        })
    }
}

impl Team for Agents {
    ghost use Rattle.bhs_wasm_team.specs.Answering.{Answers};

    ghost answers = { Answers };

    fn begin(&mut self, agent: u16) -> Result<TeamAnswer, TeamFault> {
        let role = self.roles.number(agent);
        match self.started(role) {
            Ok(answer) => Ok(answer),
            Err(_) => Err(TeamFault),
        }
    }

    fn next(&mut self, before: u32, latest: Latest, shown: &str) -> Result<TeamAnswer, TeamFault> {
        match self.asked(before, latest, shown) {
            Ok(answer) => Ok(answer),
            Err(_) => Err(TeamFault),
        }
    }
}
