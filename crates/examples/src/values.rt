// The values of SCOPE 8.1 (docs/SCOPE.md), of the definitions. No function.
